// Descriptions and settings as bytes, field by field: what is written, and what is read of any byte string. And
// bytes as text.
#![tactic(auto)]

mod damage;
mod description;
mod fields;
mod hex;
mod settings;

pub use damage::Damage;
pub use description::{Description, read_description, write_description};
pub use fields::{Fields, write_field};
pub use hex::{Hex, hex_digits};
pub use settings::{Settings, read_settings, write_settings};
