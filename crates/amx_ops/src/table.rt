ghost use Rattle.std.specs.Prelude.{◌≡◌, ◌<◌, ℕ, Some, length, slice_get, option_map};

use super::op::Op;

/// What stands behind an instruction's number.
#[derive(Clone, Copy, Debug, PartialEq, Eq)]
pub enum Operand {
    Nothing,
    AnyCell,
    /// 1, 2 or 4 bytes.
    ByteCount,
    /// A register that is read, from 0 to 6.
    Register,
    /// A register that is set: 2, 4, 5 or 6.
    SetRegister,
    /// A multiple of 4.
    Multiple,
    /// A number of bytes, not below 0.
    Length,
    /// A number of bytes, not below 0, and a multiple of 4.
    CellsLength,
    /// An address where an instruction starts.
    Target,
    /// The way from the next address to one where an instruction starts.
    Relative,
    /// A place in the native table.
    NativeNumber,
    /// The address of a case table.
    CaseTable,
    /// The count, default and pairs of a case table.
    Cases,
}

/// An instruction's number, operation, name and operand.
pub type Row = (u8, Op, &'static str, Operand);

/// Each instruction (Implementer's Guide, "Instruction reference"), by number.
pub const TABLE: [Row; 130] = [
    (1, Op::LoadPri, "LOAD.pri", Operand::AnyCell),
    (2, Op::LoadAlt, "LOAD.alt", Operand::AnyCell),
    (3, Op::LoadSPri, "LOAD.S.pri", Operand::AnyCell),
    (4, Op::LoadSAlt, "LOAD.S.alt", Operand::AnyCell),
    (5, Op::LrefPri, "LREF.pri", Operand::AnyCell),
    (6, Op::LrefAlt, "LREF.alt", Operand::AnyCell),
    (7, Op::LrefSPri, "LREF.S.pri", Operand::AnyCell),
    (8, Op::LrefSAlt, "LREF.S.alt", Operand::AnyCell),
    (9, Op::LoadI, "LOAD.I", Operand::Nothing),
    (10, Op::LodbI, "LODB.I", Operand::ByteCount),
    (11, Op::ConstPri, "CONST.pri", Operand::AnyCell),
    (12, Op::ConstAlt, "CONST.alt", Operand::AnyCell),
    (13, Op::AddrPri, "ADDR.pri", Operand::AnyCell),
    (14, Op::AddrAlt, "ADDR.alt", Operand::AnyCell),
    (15, Op::StorPri, "STOR.pri", Operand::AnyCell),
    (16, Op::StorAlt, "STOR.alt", Operand::AnyCell),
    (17, Op::StorSPri, "STOR.S.pri", Operand::AnyCell),
    (18, Op::StorSAlt, "STOR.S.alt", Operand::AnyCell),
    (19, Op::SrefPri, "SREF.pri", Operand::AnyCell),
    (20, Op::SrefAlt, "SREF.alt", Operand::AnyCell),
    (21, Op::SrefSPri, "SREF.S.pri", Operand::AnyCell),
    (22, Op::SrefSAlt, "SREF.S.alt", Operand::AnyCell),
    (23, Op::StorI, "STOR.I", Operand::Nothing),
    (24, Op::StrbI, "STRB.I", Operand::ByteCount),
    (25, Op::Lidx, "LIDX", Operand::Nothing),
    (26, Op::LidxB, "LIDX.B", Operand::AnyCell),
    (27, Op::Idxaddr, "IDXADDR", Operand::Nothing),
    (28, Op::IdxaddrB, "IDXADDR.B", Operand::AnyCell),
    (29, Op::AlignPri, "ALIGN.pri", Operand::ByteCount),
    (30, Op::AlignAlt, "ALIGN.alt", Operand::ByteCount),
    (31, Op::Lctrl, "LCTRL", Operand::Register),
    (32, Op::Sctrl, "SCTRL", Operand::SetRegister),
    (33, Op::MovePri, "MOVE.pri", Operand::Nothing),
    (34, Op::MoveAlt, "MOVE.alt", Operand::Nothing),
    (35, Op::Xchg, "XCHG", Operand::Nothing),
    (36, Op::PushPri, "PUSH.pri", Operand::Nothing),
    (37, Op::PushAlt, "PUSH.alt", Operand::Nothing),
    (39, Op::PushC, "PUSH.C", Operand::AnyCell),
    (40, Op::Push, "PUSH", Operand::AnyCell),
    (41, Op::PushS, "PUSH.S", Operand::AnyCell),
    (42, Op::PopPri, "POP.pri", Operand::Nothing),
    (43, Op::PopAlt, "POP.alt", Operand::Nothing),
    (44, Op::Stack, "STACK", Operand::Multiple),
    (45, Op::Heap, "HEAP", Operand::Multiple),
    (46, Op::Proc, "PROC", Operand::Nothing),
    (47, Op::Ret, "RET", Operand::Nothing),
    (48, Op::Retn, "RETN", Operand::Nothing),
    (49, Op::Call, "CALL", Operand::Target),
    (50, Op::CallPri, "CALL.pri", Operand::Nothing),
    (51, Op::Jump, "JUMP", Operand::Target),
    (52, Op::Jrel, "JREL", Operand::Relative),
    (53, Op::Jzer, "JZER", Operand::Target),
    (54, Op::Jnz, "JNZ", Operand::Target),
    (55, Op::Jeq, "JEQ", Operand::Target),
    (56, Op::Jneq, "JNEQ", Operand::Target),
    (57, Op::Jless, "JLESS", Operand::Target),
    (58, Op::Jleq, "JLEQ", Operand::Target),
    (59, Op::Jgrtr, "JGRTR", Operand::Target),
    (60, Op::Jgeq, "JGEQ", Operand::Target),
    (61, Op::Jsless, "JSLESS", Operand::Target),
    (62, Op::Jsleq, "JSLEQ", Operand::Target),
    (63, Op::Jsgrtr, "JSGRTR", Operand::Target),
    (64, Op::Jsgeq, "JSGEQ", Operand::Target),
    (65, Op::Shl, "SHL", Operand::Nothing),
    (66, Op::Shr, "SHR", Operand::Nothing),
    (67, Op::Sshr, "SSHR", Operand::Nothing),
    (68, Op::ShlCPri, "SHL.C.pri", Operand::AnyCell),
    (69, Op::ShlCAlt, "SHL.C.alt", Operand::AnyCell),
    (70, Op::ShrCPri, "SHR.C.pri", Operand::AnyCell),
    (71, Op::ShrCAlt, "SHR.C.alt", Operand::AnyCell),
    (72, Op::Smul, "SMUL", Operand::Nothing),
    (73, Op::Sdiv, "SDIV", Operand::Nothing),
    (74, Op::SdivAlt, "SDIV.alt", Operand::Nothing),
    (75, Op::Umul, "UMUL", Operand::Nothing),
    (76, Op::Udiv, "UDIV", Operand::Nothing),
    (77, Op::UdivAlt, "UDIV.alt", Operand::Nothing),
    (78, Op::Add, "ADD", Operand::Nothing),
    (79, Op::Sub, "SUB", Operand::Nothing),
    (80, Op::SubAlt, "SUB.alt", Operand::Nothing),
    (81, Op::And, "AND", Operand::Nothing),
    (82, Op::Or, "OR", Operand::Nothing),
    (83, Op::Xor, "XOR", Operand::Nothing),
    (84, Op::Not, "NOT", Operand::Nothing),
    (85, Op::Neg, "NEG", Operand::Nothing),
    (86, Op::Invert, "INVERT", Operand::Nothing),
    (87, Op::AddC, "ADD.C", Operand::AnyCell),
    (88, Op::SmulC, "SMUL.C", Operand::AnyCell),
    (89, Op::ZeroPri, "ZERO.pri", Operand::Nothing),
    (90, Op::ZeroAlt, "ZERO.alt", Operand::Nothing),
    (91, Op::Zero, "ZERO", Operand::AnyCell),
    (92, Op::ZeroS, "ZERO.S", Operand::AnyCell),
    (93, Op::SignPri, "SIGN.pri", Operand::Nothing),
    (94, Op::SignAlt, "SIGN.alt", Operand::Nothing),
    (95, Op::Eq, "EQ", Operand::Nothing),
    (96, Op::Neq, "NEQ", Operand::Nothing),
    (97, Op::Less, "LESS", Operand::Nothing),
    (98, Op::Leq, "LEQ", Operand::Nothing),
    (99, Op::Grtr, "GRTR", Operand::Nothing),
    (100, Op::Geq, "GEQ", Operand::Nothing),
    (101, Op::Sless, "SLESS", Operand::Nothing),
    (102, Op::Sleq, "SLEQ", Operand::Nothing),
    (103, Op::Sgrtr, "SGRTR", Operand::Nothing),
    (104, Op::Sgeq, "SGEQ", Operand::Nothing),
    (105, Op::EqCPri, "EQ.C.pri", Operand::AnyCell),
    (106, Op::EqCAlt, "EQ.C.alt", Operand::AnyCell),
    (107, Op::IncPri, "INC.pri", Operand::Nothing),
    (108, Op::IncAlt, "INC.alt", Operand::Nothing),
    (109, Op::Inc, "INC", Operand::AnyCell),
    (110, Op::IncS, "INC.S", Operand::AnyCell),
    (111, Op::IncI, "INC.I", Operand::Nothing),
    (112, Op::DecPri, "DEC.pri", Operand::Nothing),
    (113, Op::DecAlt, "DEC.alt", Operand::Nothing),
    (114, Op::Dec, "DEC", Operand::AnyCell),
    (115, Op::DecS, "DEC.S", Operand::AnyCell),
    (116, Op::DecI, "DEC.I", Operand::Nothing),
    (117, Op::Movs, "MOVS", Operand::Length),
    (118, Op::Cmps, "CMPS", Operand::Length),
    (119, Op::Fill, "FILL", Operand::CellsLength),
    (120, Op::Halt, "HALT", Operand::AnyCell),
    (121, Op::Bounds, "BOUNDS", Operand::AnyCell),
    (122, Op::SysreqPri, "SYSREQ.pri", Operand::Nothing),
    (123, Op::SysreqC, "SYSREQ.C", Operand::NativeNumber),
    (128, Op::JumpPri, "JUMP.pri", Operand::Nothing),
    (129, Op::Switch, "SWITCH", Operand::CaseTable),
    (130, Op::Casetbl, "CASETBL", Operand::Cases),
    (131, Op::SwapPri, "SWAP.pri", Operand::Nothing),
    (132, Op::SwapAlt, "SWAP.alt", Operand::Nothing),
    (133, Op::PushAdr, "PUSH.ADR", Operand::AnyCell),
    (134, Op::Nop, "NOP", Operand::Nothing),
    (137, Op::Break, "BREAK", Operand::Nothing),
];

ghost use Rattle.amx_ops.specs.Table as spec;

/// The number and the operand of the row whose number a cell of code is.
pub fn row_at(cell: i32) -> Option<(u8, Operand)>
    ensures { result ≡ spec.operand_at cell }
{
    operand_in(&TABLE, cell)
}

/// The operation whose number a cell of code is.
pub fn op_at(cell: i32) -> Option<Op>
    ensures { result ≡ spec.operation_at cell }
{
    op_in(&TABLE, cell)
}

fn operand_in(rows: &[Row], cell: i32) -> Option<(u8, Operand)>
    requires { spec.rows_of rows.now ≡ spec.table }
    ensures { result ≡ spec.operand_at cell }
{
    let row = row_in(rows, cell)?;
    Some((row.0, row.3))
}

fn op_in(rows: &[Row], cell: i32) -> Option<Op>
    requires { spec.rows_of rows.now ≡ spec.table }
    ensures { result ≡ spec.operation_at cell }
{
    let row = row_in(rows, cell)?;
    Some(row.1)
}

fn row_in(rows: &[Row], cell: i32) -> Option<&Row>
    requires { spec.rows_of rows.now ≡ spec.table }
    ensures { option_map (λ row. spec.row_by row.now) result ≡ spec.row_at cell }
{
    let row = &rows[place_of(cell.cast_unsigned())];
    if i32::from(row.0) == cell {
        Some(row)
    } else {
        None
    }
}

/// Where the row with a number stands, if there is one. The rows stand in the order of their
/// numbers, which have three gaps.
fn place_of(number: u32) -> usize
    ensures within { result < length spec.table }
    ensures place { (k : ℕ) (row : spec.Row) → slice_get spec.table k ≡ Some row →
        row.number ≡ number → result ≡ k }
{
    match number {
        0..=37 => number.saturating_sub(1) as usize,
        38..=123 => number as usize - 2,
        124..=134 => number as usize - 6,
        _ => TABLE.len() - 1,
    }
}
