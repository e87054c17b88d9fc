// Lines of words, form by form, with the smallest and the largest constants.
#![tactic(auto)]

#[cfg(test)]
mod tests {
    use isa::line_text;
    use std::process::Abort;
    use std::test::Fail;

    // Each word has the line beside it.
    fn read(rt: &(impl Abort + AllocGlobal), lines: &[(u32, &str)]) -> Result<(), Fail> {
        for (word, text) in lines {
            let line = line_text(rt.alloc(), *word)?;
            assert_eq!(rt; line.as_str(), *text);
        }
        Ok(())
    }

    #[test]
    fn examples(rt: HostRuntime) -> Result<(), Fail> {
        let lines = [
            (0x68C2003A, "addi r3, r1, 58"),
            (0xE1C60004, "shl r7, r3, 4"),
            (0x61885000, "add r6, r4, r5"),
            (0x1A4000D4, "st r9, 212"),
            (0x0841FFFF, "ld r1, -1"),
            (0x60000001, "word 60000001"),
            (0x084800D0, "ld r1, 208(r4)"),
            (0x084000D0, "ld r1, 208"),
            (0x107FFFF8, "ldr r1, -8"),
        ];
        read(&rt, &lines)
    }

    #[test]
    fn transfers(rt: HostRuntime) -> Result<(), Fail> {
        let lines = [
            (0x0FC0FFFF, "ld r31, 65535"),
            (0x08010000, "ld r0, -65536"),
            (0x087EFFFF, "ld r1, 65535(r31)"),
            (0x08830000, "ld r2, -65536(r1)"),
            (0x1FC0FFFF, "st r31, 65535"),
            (0x18010000, "st r0, -65536"),
            (0x187EFFFF, "st r1, 65535(r31)"),
            (0x18830000, "st r2, -65536(r1)"),
            (0x2FC0FFFF, "la r31, 65535"),
            (0x28010000, "la r0, -65536"),
            (0x287EFFFF, "la r1, 65535(r31)"),
            (0x28830000, "la r2, -65536(r1)"),
            (0x17DFFFFF, "ldr r31, 2097151"),
            (0x10200000, "ldr r0, -2097152"),
            (0x27DFFFFF, "str r31, 2097151"),
            (0x20200000, "str r0, -2097152"),
            (0x37DFFFFF, "lar r31, 2097151"),
            (0x30200000, "lar r0, -2097152"),
        ];
        read(&rt, &lines)
    }

    #[test]
    fn plain_and_branches(rt: HostRuntime) -> Result<(), Fail> {
        let lines = [
            (0x00000000, "nop"),
            (0xF8000000, "stop"),
            (0x403FE007, "br r31, r30, 7"),
            (0x40000000, "br r0, r0, 0"),
            (0x4F7FE007, "brl r29, r31, r30, 7"),
            (0x48000000, "brl r0, r0, r0, 0"),
        ];
        read(&rt, &lines)
    }

    #[test]
    fn arithmetic(rt: HostRuntime) -> Result<(), Fail> {
        let lines = [
            (0x67FDD000, "add r31, r30, r29"),
            (0x77FDD000, "sub r31, r30, r29"),
            (0xA7FDD000, "and r31, r30, r29"),
            (0xB7FDD000, "or r31, r30, r29"),
            (0x6FFCFFFF, "addi r31, r30, 65535"),
            (0x68010000, "addi r0, r0, -65536"),
            (0x694DFFFF, "addi r5, r6, -1"),
            (0xAFFCFFFF, "andi r31, r30, 65535"),
            (0xA8010000, "andi r0, r0, -65536"),
            (0xA94DFFFF, "andi r5, r6, -1"),
            (0xBFFCFFFF, "ori r31, r30, 65535"),
            (0xB8010000, "ori r0, r0, -65536"),
            (0xB94DFFFF, "ori r5, r6, -1"),
            (0x7FC1E000, "neg r31, r30"),
            (0xC7C1E000, "not r31, r30"),
        ];
        read(&rt, &lines)
    }

    #[test]
    fn shifts(rt: HostRuntime) -> Result<(), Fail> {
        let lines = [
            (0xD7FC001F, "shr r31, r30, 31"),
            (0xD0440001, "shr r1, r2, 1"),
            (0xD0C85000, "shr r3, r4, r5"),
            (0xD0000000, "shr r0, r0, r0"),
            (0xDFFC001F, "shra r31, r30, 31"),
            (0xD8440001, "shra r1, r2, 1"),
            (0xD8C85000, "shra r3, r4, r5"),
            (0xD8000000, "shra r0, r0, r0"),
            (0xE7FC001F, "shl r31, r30, 31"),
            (0xE0440001, "shl r1, r2, 1"),
            (0xE0C85000, "shl r3, r4, r5"),
            (0xE0000000, "shl r0, r0, r0"),
            (0xEFFC001F, "shc r31, r30, 31"),
            (0xE8440001, "shc r1, r2, 1"),
            (0xE8C85000, "shc r3, r4, r5"),
            (0xE8000000, "shc r0, r0, r0"),
        ];
        read(&rt, &lines)
    }

    #[test]
    fn stray_and_unassigned(rt: HostRuntime) -> Result<(), Fail> {
        let lines = [
            (0x00000001, "word 00000001"),
            (0x04000000, "word 04000000"),
            (0xF8000001, "word F8000001"),
            (0xF8400000, "word F8400000"),
            (0x40400000, "word 40400000"),
            (0x40000008, "word 40000008"),
            (0x40000800, "word 40000800"),
            (0x48000008, "word 48000008"),
            (0x48000800, "word 48000800"),
            (0x60000001, "word 60000001"),
            (0x70000800, "word 70000800"),
            (0xA0000010, "word A0000010"),
            (0xB0000001, "word B0000001"),
            (0x78020000, "word 78020000"),
            (0x78200000, "word 78200000"),
            (0x78000001, "word 78000001"),
            (0xC0000800, "word C0000800"),
            (0xD0001001, "word D0001001"),
            (0xD801001F, "word D801001F"),
            (0xE0000020, "word E0000020"),
            (0xE8000800, "word E8000800"),
            (0xE8001020, "word E8001020"),
            (0x38000000, "word 38000000"),
            (0x50000000, "word 50000000"),
            (0x5FFFFFFF, "word 5FFFFFFF"),
            (0x80000000, "word 80000000"),
            (0x88000000, "word 88000000"),
            (0x90000000, "word 90000000"),
            (0x98000000, "word 98000000"),
            (0xC8000000, "word C8000000"),
            (0xF7FFFFFF, "word F7FFFFFF"),
        ];
        read(&rt, &lines)
    }
}
