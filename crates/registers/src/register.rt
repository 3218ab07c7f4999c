// The registers, in the order of their addresses, 00 to 17 (hexadecimal). There is no register at 18 to 1F.
#[derive(Clone, Copy, PartialEq, Eq, Debug)]
pub enum Register {
    Config,
    EnAa,
    EnRxaddr,
    SetupAw,
    SetupRetr,
    RfCh,
    RfSetup,
    Status,
    ObserveTx,
    Reserved,
    RxAddrP0,
    RxAddrP1,
    RxAddrP2,
    RxAddrP3,
    RxAddrP4,
    RxAddrP5,
    TxAddr,
    RxPwP0,
    RxPwP1,
    RxPwP2,
    RxPwP3,
    RxPwP4,
    RxPwP5,
    FifoStatus,
}

// No register has the address.
#[derive(Clone, Copy, Debug, PartialEq, Eq)]
pub struct NoSuchRegister;
