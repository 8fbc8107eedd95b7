/// The operation of an instruction (Implementer's Guide, "Instruction reference"), in the order of
/// [`TABLE`](super::TABLE). v is the operand, `[a]` the cell at an address; a push and a pop move
/// STK.
#[derive(Clone, Copy, PartialEq, Eq)]
pub enum Op {
    /// PRI = [v]
    LoadPri,
    /// ALT = [v]
    LoadAlt,
    /// PRI = [FRM + v]
    LoadSPri,
    /// ALT = [FRM + v]
    LoadSAlt,
    /// PRI = [[v]]
    LrefPri,
    /// ALT = [[v]]
    LrefAlt,
    /// PRI = [[FRM + v]]
    LrefSPri,
    /// ALT = [[FRM + v]]
    LrefSAlt,
    /// PRI = [PRI]
    LoadI,
    /// PRI = v bytes at PRI, without sign.
    LodbI,
    /// PRI = v
    ConstPri,
    /// ALT = v
    ConstAlt,
    /// PRI = FRM + v
    AddrPri,
    /// ALT = FRM + v
    AddrAlt,
    /// [v] = PRI
    StorPri,
    /// [v] = ALT
    StorAlt,
    /// [FRM + v] = PRI
    StorSPri,
    /// [FRM + v] = ALT
    StorSAlt,
    /// [[v]] = PRI
    SrefPri,
    /// [[v]] = ALT
    SrefAlt,
    /// [[FRM + v]] = PRI
    SrefSPri,
    /// [[FRM + v]] = ALT
    SrefSAlt,
    /// [ALT] = PRI
    StorI,
    /// v bytes at ALT = low bytes of PRI
    StrbI,
    /// PRI = [ALT + 4 PRI]
    Lidx,
    /// PRI = [ALT + (PRI << v)]
    LidxB,
    /// PRI = ALT + 4 PRI
    Idxaddr,
    /// PRI = ALT + (PRI << v)
    IdxaddrB,
    /// PRI = PRI xor (4 - v)
    AlignPri,
    /// ALT = ALT xor (4 - v)
    AlignAlt,
    /// PRI = a register, by its number v.
    Lctrl,
    /// A register = PRI, by its number v.
    Sctrl,
    /// PRI = ALT
    MovePri,
    /// ALT = PRI
    MoveAlt,
    /// Exchanges PRI and ALT.
    Xchg,
    /// Pushes PRI.
    PushPri,
    /// Pushes ALT.
    PushAlt,
    /// Pushes v.
    PushC,
    /// Pushes [v].
    Push,
    /// Pushes [FRM + v].
    PushS,
    /// Pops PRI.
    PopPri,
    /// Pops ALT.
    PopAlt,
    /// ALT = STK, STK += v
    Stack,
    /// ALT = HEA, HEA += v
    Heap,
    /// Pushes FRM, FRM = STK.
    Proc,
    /// Pops FRM and CIP.
    Ret,
    /// Pops FRM, CIP and a count, STK += count.
    Retn,
    /// Pushes the next address, CIP = v.
    Call,
    /// Pushes the next address, CIP = PRI.
    CallPri,
    /// CIP = v
    Jump,
    /// CIP = the next address + v
    Jrel,
    /// Jumps where PRI = 0.
    Jzer,
    /// Jumps where PRI isn't 0.
    Jnz,
    /// Jumps where PRI = ALT.
    Jeq,
    /// Jumps where PRI isn't ALT.
    Jneq,
    /// Jumps where PRI < ALT, without sign.
    Jless,
    /// Jumps where PRI <= ALT, without sign.
    Jleq,
    /// Jumps where PRI > ALT, without sign.
    Jgrtr,
    /// Jumps where PRI >= ALT, without sign.
    Jgeq,
    /// Jumps where PRI < ALT.
    Jsless,
    /// Jumps where PRI <= ALT.
    Jsleq,
    /// Jumps where PRI > ALT.
    Jsgrtr,
    /// Jumps where PRI >= ALT.
    Jsgeq,
    /// PRI <<= ALT
    Shl,
    /// PRI >>= ALT, without sign.
    Shr,
    /// PRI >>= ALT
    Sshr,
    /// PRI <<= v
    ShlCPri,
    /// ALT <<= v
    ShlCAlt,
    /// PRI >>= v, without sign.
    ShrCPri,
    /// ALT >>= v, without sign.
    ShrCAlt,
    /// PRI = PRI * ALT
    Smul,
    /// PRI = quotient of PRI by ALT, ALT = remainder
    Sdiv,
    /// PRI = quotient of ALT by PRI, ALT = remainder
    SdivAlt,
    /// PRI = PRI * ALT
    Umul,
    /// PRI = quotient of PRI by ALT, ALT = remainder, without sign.
    Udiv,
    /// PRI = quotient of ALT by PRI, ALT = remainder, without sign.
    UdivAlt,
    /// PRI = PRI + ALT
    Add,
    /// PRI = PRI - ALT
    Sub,
    /// PRI = ALT - PRI
    SubAlt,
    /// PRI = PRI and ALT
    And,
    /// PRI = PRI or ALT
    Or,
    /// PRI = PRI xor ALT
    Xor,
    /// PRI = 1 where PRI is 0, else 0
    Not,
    /// PRI = -PRI
    Neg,
    /// PRI = PRI with all bits turned
    Invert,
    /// PRI = PRI + v
    AddC,
    /// PRI = PRI * v
    SmulC,
    /// PRI = 0
    ZeroPri,
    /// ALT = 0
    ZeroAlt,
    /// [v] = 0
    Zero,
    /// [FRM + v] = 0
    ZeroS,
    /// PRI = its low byte with sign
    SignPri,
    /// ALT = its low byte with sign
    SignAlt,
    /// PRI = whether PRI = ALT
    Eq,
    /// PRI = whether PRI isn't ALT
    Neq,
    /// PRI = whether PRI < ALT, without sign.
    Less,
    /// PRI = whether PRI <= ALT, without sign.
    Leq,
    /// PRI = whether PRI > ALT, without sign.
    Grtr,
    /// PRI = whether PRI >= ALT, without sign.
    Geq,
    /// PRI = whether PRI < ALT
    Sless,
    /// PRI = whether PRI <= ALT
    Sleq,
    /// PRI = whether PRI > ALT
    Sgrtr,
    /// PRI = whether PRI >= ALT
    Sgeq,
    /// PRI = whether PRI = v
    EqCPri,
    /// PRI = whether ALT = v
    EqCAlt,
    /// PRI + 1
    IncPri,
    /// ALT + 1
    IncAlt,
    /// [v] + 1
    Inc,
    /// [FRM + v] + 1
    IncS,
    /// [PRI] + 1
    IncI,
    /// PRI - 1
    DecPri,
    /// ALT - 1
    DecAlt,
    /// [v] - 1
    Dec,
    /// [FRM + v] - 1
    DecS,
    /// [PRI] - 1
    DecI,
    /// v bytes from PRI to ALT, as if read first.
    Movs,
    /// Compares v bytes at ALT and PRI.
    Cmps,
    /// v bytes from ALT on = PRI, in cells.
    Fill,
    /// Halts with the code v.
    Halt,
    /// Error 4 where PRI is above v, without sign.
    Bounds,
    /// Calls native number PRI.
    SysreqPri,
    /// Calls native number v.
    SysreqC,
    /// CIP = PRI
    JumpPri,
    /// CIP = the address of PRI in the case table at v.
    Switch,
    /// A case table: count, default address, and pairs of value and address. Executed, error 6.
    Casetbl,
    /// Exchanges [STK] and PRI.
    SwapPri,
    /// Exchanges [STK] and ALT.
    SwapAlt,
    /// Pushes FRM + v.
    PushAdr,
    /// Nothing.
    Nop,
    /// Nothing.
    Break,
}
