// Tests of the script reader, in a crate of their own so that the reader is proved once.
#![tactic(auto)]

#[cfg(test)]
mod tests {
    use script::{BadLine, Event, Expected, LinkEvent, Peer, ReadFault, read};
    use std::alloc::Global;
    use std::process::Abort;
    use std::test::Fail;

    // The bad line of a text, if it has one.
    fn bad_line(heap: Global, text: &str) -> Option<BadLine> {
        match read(heap, text.as_bytes()) {
            Err(ReadFault::Line(bad)) => Some(bad),
            _ => None,
        }
    }

    // That a text is refused at a line, with what was expected there.
    fn refused(rt: &impl Abort, heap: Global, text: &str, line: u64, expected: Expected) {
        assert_eq!(rt;
            bad_line(heap, text),
            Some(BadLine { line, expected }),
            "{}",
            text
        );
    }

    #[test]
    fn words(rt: HostRuntime) {
        refused(&rt, rt.alloc(), "", 1, Expected::Rounds);
        refused(&rt, rt.alloc(), "# peer 1\n\n", 3, Expected::Rounds);
        refused(&rt, rt.alloc(), "\n\tPeer 1\n", 2, Expected::Statement);
        refused(&rt, rt.alloc(), "pieces 3", 1, Expected::Played);
        refused(&rt, rt.alloc(), "say 9 1 at 3 may 0", 1, Expected::Played);
        refused(&rt, rt.alloc(), "peer 1 has all\n", 1, Expected::LineEnd);
        refused(&rt, rt.alloc(), "rounds 1 2\n", 1, Expected::LineEnd);
        refused(&rt, rt.alloc(), "rounds 1\npeer 1\n", 2, Expected::Nothing);
    }

    #[test]
    fn numbers(rt: HostRuntime) {
        refused(&rt, rt.alloc(), "peer", 1, Expected::PeerNumber);
        refused(&rt, rt.alloc(), "peer 0", 1, Expected::PeerNumber);
        refused(&rt, rt.alloc(), "peer 01", 1, Expected::PeerNumber);
        refused(&rt, rt.alloc(), "peer +1", 1, Expected::PeerNumber);
        refused(
            &rt,
            rt.alloc(),
            "false 18446744073709551616",
            1,
            Expected::PeerNumber,
        );
        refused(&rt, rt.alloc(), "rounds", 1, Expected::Count);
        refused(&rt, rt.alloc(), "rounds 4294967296", 1, Expected::Count);
    }

    #[test]
    fn peers(rt: HostRuntime) {
        refused(&rt, rt.alloc(), "peer 1\nfalse 1\n", 2, Expected::NewPeer);
        refused(
            &rt,
            rt.alloc(),
            "peer 1\nlink 1 2 at 0\npeer 2\n",
            2,
            Expected::KnownPeer,
        );
        refused(
            &rt,
            rt.alloc(),
            "peer 1\nbreak 2 1 at 0\n",
            2,
            Expected::KnownPeer,
        );
        refused(
            &rt,
            rt.alloc(),
            "peer 1\nlink 1 1 at 0\n",
            2,
            Expected::OtherPeer,
        );
    }

    #[test]
    fn links(rt: HostRuntime) {
        refused(&rt, rt.alloc(), "link 1 2 in 0", 1, Expected::At);
        refused(&rt, rt.alloc(), "link 1 2 at soon", 1, Expected::Tick);
        refused(&rt, rt.alloc(), "link 1 2 at 0 slow", 1, Expected::Delay);
        refused(
            &rt,
            rt.alloc(),
            "link 1 2 at 0 delay",
            1,
            Expected::DelayTicks,
        );
        refused(
            &rt,
            rt.alloc(),
            "link 1 2 at 0 delay 0",
            1,
            Expected::DelayTicks,
        );
        refused(
            &rt,
            rt.alloc(),
            "link 1 2 at 0 delay 9",
            1,
            Expected::DelayTicks,
        );
        refused(
            &rt,
            rt.alloc(),
            "peer 1\npeer 2\nbreak 1 2 at 4\nlink 2 1 at 5\nrounds 1",
            3,
            Expected::StandingLink,
        );
        refused(
            &rt,
            rt.alloc(),
            "peer 1\npeer 2\nlink 1 2 at 5\nbreak 2 1 at 5\nbreak 1 2 at 6\nrounds 1",
            5,
            Expected::StandingLink,
        );
    }

    // Peers come out by their numbers, and events by their ticks and lines.
    #[test]
    fn sorts(rt: HostRuntime) -> Result<(), Fail> {
        let text =
            "false 9\npeer 2\r\nbreak 9 2 at 7 # last\nlink 2 9 at 7\n  link 2 9 at 3 delay 8\nrounds 2";
        let Ok(script) = read(rt.alloc(), text.as_bytes()) else {
            return Err(Fail::new("refused"));
        };
        assert_eq!(rt; script.rounds, 2);
        assert!(rt; script.peers.len() == 2);
        assert_eq!(rt;
            script.peers[0],
            Peer {
                id: 2,
                honest: true,
            }
        );
        assert_eq!(rt;
            script.peers[1],
            Peer {
                id: 9,
                honest: false,
            }
        );
        assert!(rt; script.events.len() == 3);
        assert_eq!(rt;
            script.events[0],
            Event {
                at: 3,
                a: 2,
                b: 9,
                what: LinkEvent::Opens(8),
                line: 5,
            }
        );
        assert_eq!(rt;
            script.events[1],
            Event {
                at: 7,
                a: 9,
                b: 2,
                what: LinkEvent::Breaks,
                line: 3,
            }
        );
        assert_eq!(rt;
            script.events[2],
            Event {
                at: 7,
                a: 2,
                b: 9,
                what: LinkEvent::Opens(1),
                line: 4,
            }
        );
        Ok(())
    }
}
