// Runs of the core on small programs.
#![tactic(auto)]

#[cfg(test)]
mod tests {
    use memory::WordMemory;
    use onebus::{Cause, Core, CoreFault, Progress};

    const FINISHED: Result<Progress, CoreFault> = Ok(Progress::Finished { stops: false });

    // One instruction, or 64 steps of it: its steps, and what the last of them answers.
    fn one_instruction(core: &mut Core, words: &mut [u32]) -> (u32, Result<Progress, CoreFault>) {
        let mut memory = WordMemory::new(words);
        for steps in 1..64u32 {
            let answer = core.step(&mut memory);
            if answer != Ok(Progress::Within) {
                return (steps, answer);
            }
        }
        (64, core.step(&mut memory))
    }

    // brl r5, r5, r0, 1: PC takes the old R5
    #[test]
    fn brl_takes_the_old_register(rt: HostRuntime) {
        let mut core = Core::new();
        core.set_register(5, 64);
        let run = one_instruction(&mut core, &mut [0x494A_0001]);
        assert_eq!(rt; run, (7, FINISHED));
        assert_eq!(rt; core.pc(), 64);
        assert_eq!(rt; core.register(5), Some(4));
    }

    // shr r1, r2, r3: by the low five bits of R3
    #[test]
    fn shifts_count_modulo_32(rt: HostRuntime) {
        let mut core = Core::new();
        core.set_register(2, 0x8000_0000);
        core.set_register(3, 33);
        let run = one_instruction(&mut core, &mut [0xD044_3000]);
        assert_eq!(rt; run, (9, FINISHED));
        assert_eq!(rt; core.register(1), Some(0x4000_0000));
        core.restart();
        core.set_register(3, 32);
        let run = one_instruction(&mut core, &mut [0xD044_3000]);
        assert_eq!(rt; run, (8, FINISHED));
        assert_eq!(rt; core.register(1), Some(0x8000_0000));
    }

    // stop
    #[test]
    fn stops_in_four(rt: HostRuntime) {
        let mut core = Core::new();
        let run = one_instruction(&mut core, &mut [0xF800_0000]);
        assert_eq!(rt; run, (4, Ok(Progress::Finished { stops: true })));
    }

    // ld r1, -1: the address is no multiple of four, though there is no such word either
    #[test]
    fn faults_unaligned_first(rt: HostRuntime) {
        let mut core = Core::new();
        let run = one_instruction(&mut core, &mut [0x0841_FFFF]);
        let fault = CoreFault {
            cause: Cause::Unaligned,
            address: 0xFFFF_FFFF,
            step: 6,
        };
        assert_eq!(rt; run, (7, Err(fault)));
        assert_eq!(rt; fault.cause.number(), 18);
    }

    // code 7 is unassigned; the fault's address is the instruction's
    #[test]
    fn faults_unassigned_in_three(rt: HostRuntime) {
        let mut core = Core::new();
        let mut words = [0, 0x3800_0000];
        let first = one_instruction(&mut core, &mut words);
        assert_eq!(rt; first, (4, FINISHED));
        let run = one_instruction(&mut core, &mut words);
        let fault = CoreFault {
            cause: Cause::Unassigned,
            address: 4,
            step: 3,
        };
        assert_eq!(rt; run, (4, Err(fault)));
        assert_eq!(rt; fault.cause.number(), 17);
    }
}
