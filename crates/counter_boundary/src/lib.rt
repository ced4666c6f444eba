// The counter's two questions over C's ABI, for hosts. include/keeper.h says what each is for.
//
// Each answers the refusal's number, 0 when it is done, and puts its value, 0 on refusal, where the host says.
#![tactic(auto)]

ghost use Rattle.std.specs.Prelude.{◌≡◌};
ghost use Rattle.answer.specs.Answer.{number_in};
ghost use Rattle.counter.specs.Counter.{cell_to_order, part_in_hand};
ghost use Rattle.counter_boundary.specs.Values.{order_value, hand_value};

use answer::Refusal;
use counter::{Best, ControlUnit, Hand, cell_to_order, part_in_hand};

fn number_in<T>(answer: &Result<T, Refusal>) -> u32
    ensures { result ≡ number_in answer.now }
{
    match answer {
        Ok(_) => 0,
        Err(refusal) => refusal.number(),
    }
}

fn order_value(order: Result<Best, Refusal>) -> u64
    ensures { result ≡ order_value order }
{
    match order {
        Ok(best) => u64::from(best.cell),
        Err(_) => 0,
    }
}

fn hand_value(hand: Result<Hand, Refusal>) -> u64
    ensures { result ≡ hand_value hand }
{
    let Ok(hand) = hand else {
        return 0;
    };
    match hand {
        Hand::ThatOne => 1,
        Hand::Equal => 2,
        Hand::Older => 3,
        Hand::NotListed => 4,
    }
}

#[unsafe(no_mangle)]
pub extern "C" fn keeper_cell_to_order(
    medium: &[u8],
    lowest: u32,
    count: u32,
    value: &mut u64,
) -> u32
    ensures number { result ≡ number_in (cell_to_order medium.now lowest count) }
    ensures value { value.new ≡ order_value (cell_to_order medium.now lowest count) }
{
    let order = cell_to_order(medium, ControlUnit { lowest, count });
    *value = order_value(order);
    number_in(&order)
}

#[unsafe(no_mangle)]
pub extern "C" fn keeper_part_in_hand(
    medium: &[u8],
    lowest: u32,
    count: u32,
    part: u64,
    value: &mut u64,
) -> u32
    ensures number { result ≡ number_in (part_in_hand medium.now lowest count part) }
    ensures value { value.new ≡ hand_value (part_in_hand medium.now lowest count part) }
{
    let hand = part_in_hand(medium, ControlUnit { lowest, count }, part);
    *value = hand_value(hand);
    number_in(&hand)
}
