use registers::Register;

// A command of the host, with the data bytes that follow its first byte: each has them as they came, also one that takes none,
// since a refusal for the role comes before that of the length.
#[derive(Clone, Copy, Debug, PartialEq, Eq)]
pub enum Command<'a> {
    ReadRegister(Register, &'a [u8]),
    WriteRegister(Register, &'a [u8]),
    WritePayload(&'a [u8]),
    ReadPayload(&'a [u8]),
    FlushTx(&'a [u8]),
    FlushRx(&'a [u8]),
    Nop(&'a [u8]),
}
