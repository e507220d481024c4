//! Tests of listings at their limits.
#![tactic(auto)]

#[cfg(test)]
mod tests {
    use listings::read;
    use programs::Program;
    use std::alloc::{AllocError, Global};
    use std::test::Fail;

    // A text, written so many times.
    fn repeated(heap: Global, text: &[u8], times: usize) -> Result<Vec<u8>, AllocError> {
        let mut all = Vec::new(heap);
        for _ in 0..times {
            all.extend_from_slice(text)?;
        }
        Ok(all)
    }

    // The number, the line and the byte of the refusal of a listing, if it is refused.
    fn refusal(bytes: &[u8]) -> Option<(u8, usize, usize)> {
        let fault = read(bytes).err()?;
        Some((fault.number(), fault.line(), fault.byte()))
    }

    // The four numbers of a listing, if it is accepted.
    fn counted(bytes: &[u8]) -> Option<(usize, usize, usize, usize)> {
        let program = read(bytes).ok()?;
        Some(program.counts())
    }

    #[test]
    fn empty(rt: HostRuntime) {
        assert_eq!(rt; refusal(b""), None);
        assert_eq!(rt; counted(b""), Some((0, 0, 0, 0)));
    }

    #[test]
    fn rungs(rt: HostRuntime) -> Result<(), Fail> {
        let rung = b"LD %I0\nST %Q0\n";
        let most = repeated(rt.alloc(), rung, 128)?;
        assert_eq!(rt; counted(&most), Some((128, 256, 0, 0)));
        let more = repeated(rt.alloc(), rung, 129)?;
        assert_eq!(rt; refusal(&more), Some((5, 256, 1792)));
        Ok(())
    }

    #[test]
    fn words(rt: HostRuntime) -> Result<(), Fail> {
        let mut most = repeated(rt.alloc(), b"LD %I0\n", 1)?;
        let coils = repeated(rt.alloc(), b"ST %Q0\n", 4095)?;
        most.extend_from_slice(&coils)?;
        assert_eq!(rt; counted(&most), Some((1, 4096, 0, 0)));
        most.extend_from_slice(b"R %M0\n")?;
        assert_eq!(rt; refusal(&most), Some((11, 4096, 28672)));
        Ok(())
    }

    // A rung with so many brackets open at once.
    fn nested(heap: Global, depth: usize) -> Result<Vec<u8>, AllocError> {
        let mut all = repeated(heap, b"LD %I0\n", 1)?;
        let opened = repeated(heap, b"AND(\nLD %I1\n", depth)?;
        let closed = repeated(heap, b")\n", depth)?;
        all.extend_from_slice(&opened)?;
        all.extend_from_slice(&closed)?;
        all.extend_from_slice(b"ST %Q0\n")?;
        Ok(all)
    }

    #[test]
    fn brackets(rt: HostRuntime) -> Result<(), Fail> {
        let most = nested(rt.alloc(), 15)?;
        assert_eq!(rt; counted(&most), Some((1, 47, 15, 0)));
        let more = nested(rt.alloc(), 16)?;
        assert_eq!(rt; refusal(&more), Some((10, 31, 187)));
        Ok(())
    }

    #[test]
    fn no_lines(rt: HostRuntime) {
        assert_eq!(rt; refusal(b"LD %I255\nST %Q0\n"), None);
        let texts: [&[u8]; 11] = [
            b"LD %I256\n",
            b"LD %I00\n",
            b"LD %I0",
            b"LD %I0\r\n",
            b"ld %I0\n",
            b"LD  %I0\n",
            b"LD %I0 \n",
            b") TRUE\n",
            b"LD\n",
            b"LD \0\n",
            b"\n",
        ];
        for text in texts {
            assert_eq!(rt; refusal(text), Some((12, 0, 0)));
        }
    }

    #[test]
    fn states(rt: HostRuntime) {
        assert_eq!(rt; refusal(b"LDN TRUE\nANDN TRUE\nORN TRUE\nST %M0\n"), None);
        assert_eq!(rt; refusal(b"LD %I0\nST TRUE\n"), Some((13, 1, 7)));
        assert_eq!(rt; refusal(b"LD %I0\nST %I0\n"), Some((13, 1, 7)));
        assert_eq!(rt; refusal(b"LD %I0\n)\n"), Some((13, 1, 7)));
        assert_eq!(rt; refusal(b"LD %I0\nOR(\n"), Some((14, 2, 11)));
        assert_eq!(rt; refusal(b"LD %I0\n"), Some((14, 1, 7)));
    }

    #[test]
    fn depths(rt: HostRuntime) {
        let two = b"LD %I0\nST %Q0\nLD %I1\nOR(\nLD %I2\n)\nST %Q1\n";
        assert_eq!(rt; counted(two), Some((2, 7, 1, 1)));
        let program = Program::empty();
        assert_eq!(rt; program.counts(), (0, 0, 0, 0));
    }
}
