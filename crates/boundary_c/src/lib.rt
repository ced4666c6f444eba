// The archive for hosts: each function is exported to C under its name and is one call of the library `boundary`, whose clauses it states
// again, word for word. include/keeper.h says what each is for.
#![tactic(auto)]

mod looking;
mod recovering;
mod rows;
mod storing;
mod transaction;
