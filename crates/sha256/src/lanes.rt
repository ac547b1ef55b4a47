// The working variables of four blocks side by side.
use crate::rounds::Variables;
use std::simd::prelude::*;

pub(crate) type Lanes = Variables<u32x4>;
