// The archive of the counter's two questions: each function is exported to C under its name and is one call of the library
// `counter_boundary`, whose clauses it states again, word for word. include/keeper.h says what each is for.
#![tactic(auto)]

ghost use Rattle.std.specs.Prelude.{◌≡◌};
ghost use Rattle.answer.specs.Answer.{number_in};
ghost use Rattle.counter.specs.Counter.{cell_to_order, part_in_hand};
ghost use Rattle.counter_boundary.specs.Values.{order_value, hand_value};

#[unsafe(no_mangle)]
pub extern "C" fn keeper_cell_to_order(
    medium: &[u8],
    lowest: u32,
    count: u32,
    value: &mut u64,
) -> u32
    ensures number { result ≡ number_in (cell_to_order medium.now lowest count) }
    ensures value { value.new ≡ order_value (cell_to_order medium.now lowest count) }
{
    counter_boundary::keeper_cell_to_order(medium, lowest, count, value)
}

#[unsafe(no_mangle)]
pub extern "C" fn keeper_part_in_hand(
    medium: &[u8],
    lowest: u32,
    count: u32,
    part: u64,
    value: &mut u64,
) -> u32
    ensures number { result ≡ number_in (part_in_hand medium.now lowest count part) }
    ensures value { value.new ≡ hand_value (part_in_hand medium.now lowest count part) }
{
    counter_boundary::keeper_part_in_hand(medium, lowest, count, part, value)
}
