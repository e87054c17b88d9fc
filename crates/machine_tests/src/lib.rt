// Tests of the machine: worked values of whole runs, and every refusal that a call can reach.
#![tactic(auto)]

#[cfg(test)]
mod tests {
    use machine::{Counts, Machine, perform_all};
    use memory::{
        ByteMemory, Memory, MemoryFault, OpenRow, Pair, Row, SlowStretch, Stretch, WordMemory,
    };
    use onebus::{Cause, CoreFault};
    use run_control::{Answer, Call, MachineFault, Refusal, Turn};
    use std::process::Abort;
    use std::test::Fail;

    // A machine that has been started.
    fn started<M: Memory>(memory: M) -> Machine<M> {
        let mut machine = Machine::set_up(memory);
        let _ = machine.start();
        machine
    }

    // What the machine has counted, told at once and one by one.
    fn counted<M: Memory>(rt: &impl Abort, machine: &Machine<M>, counts: Counts) {
        assert_eq!(rt; machine.counts(), counts);
        assert_eq!(rt; machine.clocks(), counts.clocks);
        assert_eq!(rt; machine.waits(), counts.waits);
        assert_eq!(rt; machine.finished(), counts.finished);
    }

    // The call is refused by that number.
    fn refused<T: Drop>(rt: &impl Abort, answer: Result<T, Refusal>, number: u8) {
        assert_eq!(rt; answer.err().map(|refusal| refusal.number()), Some(number));
    }

    // la r1, 5 and stop
    const LA_STOP: [u32; 2] = [0x2840_0005, 0xF800_0000];

    #[test]
    fn two_instructions(rt: HostRuntime) {
        let mut words = LA_STOP;
        let mut machine = started(WordMemory::new(&mut words));
        assert_eq!(rt; machine.clock(10), Ok(Ok((10, 2))));
        assert!(rt; !machine.runs());
        assert_eq!(rt; machine.register(1), Ok(5));
        assert!(rt; machine.start().is_ok());
        assert_eq!(rt; machine.register(1), Ok(0));
        assert_eq!(rt; machine.clock(9), Ok(Ok((9, 1))));
        assert_eq!(rt; machine.step(), 3);
        assert_eq!(rt; machine.clock(100), Ok(Ok((1, 1))));
        counted(
            &rt,
            &machine,
            Counts {
                clocks: 10,
                waits: 0,
                finished: 2,
            },
        );
    }

    #[test]
    fn with_waits(rt: HostRuntime) {
        let mut words = LA_STOP;
        let mut machine = started(SlowStretch::new(
            WordMemory::new(&mut words),
            Stretch::new(0, 2, 3),
        ));
        assert_eq!(rt; machine.clock(1000), Ok(Ok((16, 2))));
        counted(
            &rt,
            &machine,
            Counts {
                clocks: 16,
                waits: 6,
                finished: 2,
            },
        );
    }

    // A reset after so many clocks, and the clock that takes it, leave R1 so.
    fn reset_after<M: Memory>(rt: &impl Abort, machine: &mut Machine<M>, clocks: u64, r1: u32) {
        assert!(rt; machine.clock(clocks).is_ok());
        assert!(rt; machine.reset().is_ok());
        assert!(rt; machine.reset_waits());
        assert_eq!(rt; machine.clock(1), Ok(Ok((1, 0))));
        assert!(rt; !machine.reset_waits());
        assert_eq!(rt; (machine.pc(), machine.step()), (0, 0));
        counted(
            rt,
            machine,
            Counts {
                clocks: 0,
                waits: 0,
                finished: 0,
            },
        );
        assert_eq!(rt; machine.register(1), Ok(r1));
    }

    #[test]
    fn resets(rt: HostRuntime) {
        let mut words = LA_STOP;
        reset_after(&rt, &mut started(WordMemory::new(&mut words)), 5, 0);
        reset_after(&rt, &mut started(WordMemory::new(&mut words)), 6, 5);

        // st r1, 4: its last step waits three clocks, and the reset comes in the second
        let mut stored = [0x1840_0004, 7];
        let mut machine = Machine::set_up(SlowStretch::new(
            WordMemory::new(&mut stored),
            Stretch::new(1, 1, 3),
        ));
        assert!(rt; machine.set_register(1, 5).is_ok());
        assert!(rt; machine.resume().is_ok());
        reset_after(&rt, &mut machine, 9, 5);
        assert_eq!(rt; machine.word(1), Ok(7));
        assert_eq!(rt; machine.clock(11), Ok(Ok((11, 1))));
        assert_eq!(rt; machine.word(1), Ok(5));
    }

    #[test]
    fn past_the_end(rt: HostRuntime) {
        let mut words = [0];
        let mut machine = started(WordMemory::new(&mut words));
        let cause = Cause::NoWord(MemoryFault { number: 1, size: 1 });
        let fault = MachineFault {
            core: CoreFault {
                cause,
                address: 4,
                step: 1,
            },
            instruction: 4,
            spent: 6,
            finished: 1,
        };
        assert_eq!(rt; machine.clock(100), Ok(Err(fault)));
        assert!(rt; machine.fault_stands());
        assert_eq!(rt; cause.number(), 19);
    }

    // One instruction, from these registers: its clocks.
    fn takes<M: Memory>(
        rt: &impl Abort,
        machine: &mut Machine<M>,
        settings: &[(u32, u32)],
        clocks: u64,
    ) {
        for (number, value) in settings {
            assert!(rt; machine.set_register(*number, *value).is_ok());
        }
        assert!(rt; machine.resume().is_ok());
        assert_eq!(rt; machine.clock(clocks), Ok(Ok((clocks, 1))));
        assert_eq!(rt; machine.step(), 0);
    }

    #[test]
    fn single_instructions(rt: HostRuntime) {
        let mut link = [0x494A_0001];
        let mut machine = Machine::set_up(WordMemory::new(&mut link));
        takes(&rt, &mut machine, &[(5, 64)], 7);
        assert_eq!(rt; machine.pc(), 64);
        assert_eq!(rt; machine.register(5), Ok(4));
        let mut shift = [0xD044_3000];
        let mut machine = Machine::set_up(WordMemory::new(&mut shift));
        takes(&rt, &mut machine, &[(2, 0x8000_0000), (3, 33)], 9);
        assert_eq!(rt; machine.register(1), Ok(0x4000_0000));
        let mut machine = Machine::set_up(WordMemory::new(&mut shift));
        takes(&rt, &mut machine, &[(2, 0x8000_0000), (3, 32)], 8);
        assert_eq!(rt; machine.register(1), Ok(0x8000_0000));
    }

    // A call that has no answer yet.
    fn turn(call: Call<'static>) -> Turn<'static> {
        Turn {
            call,
            answer: Answer::Done,
        }
    }

    #[test]
    fn a_list_of_calls(rt: HostRuntime) {
        let mut words = [0];
        let mut bytes = [0u8; 8];
        let pair = Pair::new(WordMemory::new(&mut words), ByteMemory::new(&mut bytes));
        let pile = OpenRow::new(SlowStretch::new(pair, Stretch::new(1, 1, 3)), Row::new(7));
        let mut turns = [
            turn(Call::SetWord(0, LA_STOP[0])),
            turn(Call::SetWord(1, LA_STOP[1])),
            turn(Call::Start),
            turn(Call::Clock(1000)),
        ];
        let mut machine = perform_all(pile, &mut turns);
        assert_eq!(rt; turns[3].answer, Answer::Spent(13, 2));
        counted(
            &rt,
            &machine,
            Counts {
                clocks: 13,
                waits: 3,
                finished: 2,
            },
        );
        assert_eq!(rt; machine.word(1), Ok(LA_STOP[1]));
    }

    const MARK: u32 = 0x5352_4349;

    // The image of these numbers is refused by that number, and the words stay.
    fn refuses<M: Memory>(
        rt: &(impl Abort + AllocGlobal),
        machine: &mut Machine<M>,
        numbers: &[u32],
        number: u8,
    ) -> Result<(), Fail> {
        let mut bytes = Vec::new(rt.alloc());
        for n in numbers {
            bytes.extend_from_slice(&n.to_be_bytes())?;
        }
        refused(rt, machine.load(&bytes), number);
        assert_eq!(rt; machine.word(0), Ok(0));
        Ok(())
    }

    #[test]
    fn images(rt: HostRuntime) -> Result<(), Fail> {
        let mut words = [0, 0];
        let mut machine = Machine::set_up(WordMemory::new(&mut words));
        refuses(&rt, &mut machine, &[], 8)?;
        refuses(&rt, &mut machine, &[9, 0, 1, MARK + 1, 1, 12], 9)?;
        refuses(&rt, &mut machine, &[9, 0, 1, MARK, 1, 13], 10)?;
        refuses(&rt, &mut machine, &[9, 0, 2, MARK, 1, 12], 11)?;
        refuses(&rt, &mut machine, &[9, 9, 0, 3, MARK, 1, 16], 11)?;
        refuses(&rt, &mut machine, &[9, 9, 9, 0, 3, MARK, 1, 20], 12)?;
        refuses(&rt, &mut machine, &[9, 9, 0, 1, MARK, 1, 16], 13)
    }

    // What a machine that runs refuses.
    fn while_running<M: Memory>(rt: &impl Abort, machine: &mut Machine<M>) {
        refused(rt, machine.start(), 1);
        refused(rt, machine.resume(), 1);
        refused(rt, machine.set_register(32, 1), 1);
        refused(rt, machine.set_word(1, 1), 1);
        refused(rt, machine.load(&[]), 1);
        refused(rt, machine.clock(0), 6);
        refused(rt, machine.clock(1_000_001), 6);
    }

    // What one that is stopped refuses.
    fn while_stopped<M: Memory>(rt: &impl Abort, machine: &mut Machine<M>) {
        refused(rt, machine.reset(), 3);
        refused(rt, machine.clock(0), 3);
        refused(rt, machine.set_register(32, 1), 4);
        refused(rt, machine.register(32), 4);
        refused(rt, machine.set_word(1, 1), 5);
        refused(rt, machine.word(1), 5);
    }

    #[test]
    fn calls(rt: HostRuntime) {
        let mut words = [0];
        let mut machine = Machine::set_up(WordMemory::new(&mut words));
        while_stopped(&rt, &mut machine);
        assert!(rt; machine.start().is_ok());
        while_running(&rt, &mut machine);
        assert!(rt; machine.clock(100).is_ok());
        while_stopped(&rt, &mut machine);
        refused(&rt, machine.resume(), 2);
        assert!(rt; machine.fault_stands());
    }
}
