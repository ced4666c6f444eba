// The papers' cases 11 to 14, with the steps to the other side, and holes: a line for each call that is tried, held to what the papers say.
#![tactic(auto)]

mod holes;
mod numbers;
mod sizes;

fn main() {
    sizes::case11();
    sizes::last_cell();
    sizes::case12();
    numbers::case13();
    numbers::case14();
    holes::holes();
}
