//! Scans on examples: on the plain and the doubtful kind, and on one that shows the order and the number of paths.
#![tactic(auto)]

mod trial;

pub use trial::Trial;

#[cfg(test)]
mod tests {
    use super::*;
    use banks::{Bank, OpenBank};
    use listings::read;
    use scanning::scan;
    use signals::{Doubtful, Plain};

    // Reads a listing and scans it once; nothing if either is refused.
    fn scan_listing<B: Bank>(listing: &[u8], work: &mut [B::Kind], bank: &mut B) -> Option<()> {
        let program = read(listing).ok()?;
        scan(&program, work, bank).ok()
    }

    // Output 0 after a scan, with input 0 and input 1 as given.
    fn trial(listing: &[u8], first: Trial, second: Trial) -> Option<Trial> {
        let mut slots = [Trial::Off; 768];
        let mut work = [Trial::Off; 15];
        slots[0] = first;
        slots[1] = second;
        let mut bank = OpenBank::over(&mut slots);
        scan_listing(listing, &mut work, &mut bank)?;
        bank.read(256)
    }

    #[test]
    fn the_first_of_a_series_stands_first(rt: HostRuntime) {
        let cases: [(&[u8], Trial, Trial, Trial); 4] = [
            (
                b"LD %I0\nAND %I1\nST %Q0\n",
                Trial::Left,
                Trial::Right,
                Trial::Left,
            ),
            (
                b"LD %I0\nAND %I1\nST %Q0\n",
                Trial::Right,
                Trial::Left,
                Trial::Right,
            ),
            (
                b"LD %I0\nAND(\nLD %I1\n)\nST %Q0\n",
                Trial::Left,
                Trial::Right,
                Trial::Left,
            ),
            (
                b"LD %I0\nST %Q0\nLDN %I1\nR %Q0\n",
                Trial::Left,
                Trial::Right,
                Trial::Left,
            ),
        ];
        for (listing, first, second, after) in cases {
            assert!(rt; trial(listing, first, second) == Some(after));
        }
    }

    #[test]
    fn every_path_counts_once(rt: HostRuntime) {
        let cases: [(&[u8], Trial); 3] = [
            (b"LD %I0\nST %Q0\n", Trial::On),
            (b"LD %I0\nOR %I0\nST %Q0\n", Trial::Many),
            (b"LD %I1\nOR TRUE\nST %Q0\n", Trial::On),
        ];
        for (listing, after) in cases {
            assert!(rt; trial(listing, Trial::On, Trial::Off) == Some(after));
        }
    }

    // Output 0 and marker 0 after a scan, with input 0 as given and marker 0 on.
    fn plain(listing: &[u8], input: Plain) -> Option<(Plain, Plain)> {
        let mut slots = [Plain::Off; 768];
        let mut work = [Plain::Off; 15];
        slots[0] = input;
        slots[512] = Plain::On;
        let mut bank = OpenBank::over(&mut slots);
        scan_listing(listing, &mut work, &mut bank)?;
        Some((bank.read(256)?, bank.read(512)?))
    }

    #[test]
    fn a_coil_does_not_feed_the_next_one(rt: HostRuntime) {
        let both = b"LDN %I0\nAND %M0\nSTN %M0\nST %Q0\n";
        assert!(rt; plain(both, Plain::Off) == Some((Plain::On, Plain::Off)));
    }

    #[test]
    fn a_plain_set_turns_nothing_off(rt: HostRuntime) {
        let set = b"LD %I0\nS %M0\nST %Q0\n";
        assert!(rt; plain(set, Plain::Off) == Some((Plain::Off, Plain::On)));
        let reset = b"LD %I0\nR %M0\nST %Q0\n";
        assert!(rt; plain(reset, Plain::On) == Some((Plain::On, Plain::Off)));
    }

    #[test]
    fn doubt_is_carried(rt: HostRuntime) {
        let mut slots = [Doubtful::Off; 768];
        let mut work = [Doubtful::Off; 15];
        slots[0] = Doubtful::Unknown;
        slots[1] = Doubtful::On;
        let mut bank = OpenBank::over(&mut slots);
        let listing = b"LD %I0\nAND %I1\nST %Q0\nLDN %I0\nOR %I1\nST %Q1\n";
        assert!(rt; scan_listing(listing, &mut work, &mut bank).is_some());
        assert!(rt; bank.read(256) == Some(Doubtful::Unknown));
        assert!(rt; bank.read(257) == Some(Doubtful::On));
    }

    #[test]
    fn fourteen_working_signals_are_too_few(rt: HostRuntime) {
        let mut slots = [Plain::On; 768];
        let mut work = [Plain::Off; 14];
        let mut bank = OpenBank::over(&mut slots);
        assert!(rt; scan_listing(b"LDN %I0\nST %Q0\n", &mut work, &mut bank).is_none());
        assert!(rt; bank.read(256) == Some(Plain::On));
    }
}
