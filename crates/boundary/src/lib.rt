// The boundary for hosts: every call of the library over C's ABI. include/keeper.h says what each is for.
//
// A slice crosses as pointer and length. The state is a lent slice of seven numbers: N, C, h, f, l, o and the phase, 0 idle, 1 run,
// 2 recovering. A call answers the refusal number, 0 when it is done, and puts its value, 0 on refusal, where the host says. A slice
// of another length, or with another number for a phase, is an unsound state: refusal 1, and nothing is written but the value.
//
// Each function here is one call of the library, and its contract is the papers' definition of that call, for every input.
#![tactic(auto)]

pub mod looking;
pub mod numbers;
pub mod recovering;
pub mod rows;
pub mod storing;
pub mod transaction;
