// Tests of loading: the refusals of the netlist layer, which comes first, and what is accepted. Their own crate, since a
// crate with tests is proved twice.
#![tactic(auto)]

#[cfg(test)]
mod tests {
    use model::refusal::Refusal;
    use netlist::fault::LoadFault;
    use netlist::limits::{CELLS, LINKS};
    use netlist::whole::Netlist;
    use std::alloc::{AllocError, Global};
    use std::process::Abort;
    use std::test::Fail;

    // How many pins the netlist of a text has, or what the text is refused for.
    fn outcome(heap: Global, text: &[u8]) -> Result<Result<usize, LoadFault>, AllocError> {
        let mut cells = vec![in heap; 0u16; CELLS]?;
        let mut links = vec![in heap; 0u16; LINKS]?;
        let mut netlist = Netlist::empty(heap);
        let answer = netlist.load(heap, text, cells.as_mut_slice(), links.as_mut_slice());
        Ok(answer.map(|()| netlist.counts().pins))
    }

    fn accepts(rt: &impl Abort, heap: Global, text: &[u8], pins: usize) -> Result<(), Fail> {
        assert_eq!(rt; outcome(heap, text)?, Ok(pins));
        Ok(())
    }

    fn refuses(
        rt: &impl Abort,
        heap: Global,
        text: &[u8],
        number: u8,
        line: usize,
    ) -> Result<(), Fail> {
        let fault = outcome(heap, text)?.err().ok_or("loaded")?;
        let refusal = Refusal::from(fault);
        assert_eq!(rt; refusal.number, number);
        assert_eq!(rt; refusal.line, line);
        Ok(())
    }

    #[test]
    fn undefined_names(rt: HostRuntime) -> Result<(), Fail> {
        let heap = rt.alloc();
        accepts(&rt, heap, b"INPUT(a)\nOUTPUT(y)\ny = NOT(a)\n", 1)?;
        accepts(
            &rt,
            heap,
            b"OUTPUT(y)\ny = NOT(p)\np = BUFF(a)\nINPUT(a)",
            2,
        )?;
        refuses(&rt, heap, b"INPUT(a)\nOUTPUT(z)\ny = NOT(b)\n", 10, 3)?;
        refuses(&rt, heap, b"INPUT(a)\nOUTPUT(z)\ny = NOT(a)\n", 11, 2)?;
        refuses(&rt, heap, b"OUTPUT(y)\ny = NOT(b)\nOUTPUT(z)\n", 10, 2)
    }

    #[test]
    fn ports_and_lower_layers(rt: HostRuntime) -> Result<(), Fail> {
        let heap = rt.alloc();
        refuses(&rt, heap, b"", 12, 0)?;
        refuses(&rt, heap, b"INPUT(a)\n", 12, 0)?;
        refuses(&rt, heap, b"OUTPUT(y)\ny = BUFF(y)\n", 12, 0)?;
        refuses(&rt, heap, b"INPUT(a)\nOUTPUT(z)\nfoo\n", 3, 3)?;
        refuses(&rt, heap, b"INPUT(a)\nINPUT(a)\nOUTPUT(z)\n", 7, 2)
    }

    #[test]
    fn circles(rt: HostRuntime) -> Result<(), Fail> {
        let heap = rt.alloc();
        refuses(&rt, heap, b"INPUT(a)\nOUTPUT(y)\ny = AND(a, y)\n", 13, 3)?;
        // y only reads the circle of p and q, and stands above it
        refuses(
            &rt,
            heap,
            b"INPUT(a)\nOUTPUT(y)\ny = NOT(p)\np = AND(a, q)\nq = BUFF(p)\n",
            13,
            3,
        )?;
        // no output sees this circle
        refuses(
            &rt,
            heap,
            b"INPUT(a)\nOUTPUT(y)\ny = NOT(a)\np = AND(a, q)\nq = BUFF(p)\n",
            13,
            4,
        )
    }

    #[test]
    fn readers_in_line_order(rt: HostRuntime) -> Result<(), Fail> {
        let heap = rt.alloc();
        let mut cells = vec![in heap; 0u16; CELLS]?;
        let mut links = vec![in heap; 0u16; LINKS]?;
        let mut netlist = Netlist::empty(heap);
        // q reads a at two places, and stands above p
        let text = b"INPUT(a)\nOUTPUT(y)\nq = XOR(a, p, a)\np = BUFF(a)\ny = AND(q, p)\n";
        netlist
            .load(heap, text, cells.as_mut_slice(), links.as_mut_slice())
            .map_err(|_| "refused")?;
        let none: &[u16] = &[];
        assert_eq!(rt; netlist.readers(0), Some(&[1u16, 2][..]));
        assert_eq!(rt; netlist.readers(1), Some(&[3u16][..]));
        assert_eq!(rt; netlist.readers(2), Some(&[1u16, 3][..]));
        assert_eq!(rt; netlist.readers(3), Some(none));
        assert_eq!(rt; netlist.readers(4), None);
        Ok(())
    }

    #[test]
    fn few_cells_come_first(rt: HostRuntime) -> Result<(), Fail> {
        let heap = rt.alloc();
        let mut cells = vec![in heap; 0u16; 2047]?;
        let mut links = vec![in heap; 0u16; 20480]?;
        let mut netlist = Netlist::empty(heap);
        let answer = netlist.load(heap, b"foo", cells.as_mut_slice(), links.as_mut_slice());
        assert_eq!(rt; answer, Err(LoadFault::FewCells));
        assert_eq!(rt; Refusal::from(LoadFault::FewCells).number, 1);
        assert_eq!(rt; netlist.counts().nets, 0);
        Ok(())
    }
}
