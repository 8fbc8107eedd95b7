//! The instructions of the abstract machine: their table, valid code, one step, and the trace of a
//! file under bounds on steps. Laws on these are the contracts of functions without a body.
#![tactic(auto)]

mod amx;
mod definitions;
mod instr;
mod name;
mod op;
mod table;

pub use amx::{Amx, Record};
pub use definitions::{code_is_instructions, states_stay_states, trace_is_one_iteration};
pub use instr::{Instr, decode, encode};
pub use name::Name;
pub use op::Op;
pub use table::{Operand, Row, TABLE, op_at, row_at};
