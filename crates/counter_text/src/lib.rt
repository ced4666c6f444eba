// The counter's answers as text: what a person asks, a line each, of a medium; recovery in the caller's memory; then `cell`, `part`, `release` and,
// for a part in hand, `hand`; or the refusal's number alone.
#![tactic(auto)]

ghost use Rattle.std.specs.Prelude.{◌≡◌, ◌++◌, ◌+◌, ◌≤◌, length};
ghost use Rattle.answer.specs.Answer.{number_of};
ghost use Rattle.recovered.specs.Recovered.{recovered};
ghost use Rattle.text.specs.Text.{line, refused_key};
ghost use Rattle.counter_text.specs.Screen.{question, least, lowest_of, count_of, part_of, number_told, hand_text, answer_text, refused_or, screen_text};

use answer::Refusal;
use counter::{ControlUnit, Hand, cell_to_order, part_in_hand, span_refusal};
use lines::{decimal_of, nth_bytes, nth_line};
use recovered::recover;
use text::Text;

// What is asked after the file name: a unit's lowest cell and count and, where a line gives it, the part in hand.
#[derive(Clone, Copy)]
pub struct Question {
    pub lowest: u64,
    pub count: u64,
    pub part: Option<u64>,
}

// The question of the input's second, third and fourth line; none, where one of them is no number.
fn asked_in(asked: &[u8]) -> Option<Question>
    ensures { result ≡ question asked.now }
{
    let lowest = decimal_of(nth_bytes(asked, 1))?;
    let count = decimal_of(nth_bytes(asked, 2))?;
    let Some(_) = nth_line(asked, 3) else {
        return Some(Question {
            lowest,
            count,
            part: None,
        });
    };
    let part = decimal_of(nth_bytes(asked, 3))?;
    Some(Question {
        lowest,
        count,
        part: Some(part),
    })
}

// A number, or the greatest of 32 bits: beyond any N, both are.
fn least(n: u64) -> u32
    ensures { result ≡ least n }
{
    u32::try_from(n).unwrap_or(u32::MAX)
}

// The unit that is asked for; where a line is no number, one that no medium has.
fn unit_of(question: Option<Question>) -> ControlUnit
    ensures { (result.lowest ≡ lowest_of question) × (result.count ≡ count_of question) }
{
    match question {
        Some(asked) => ControlUnit {
            lowest: least(asked.lowest),
            count: least(asked.count),
        },
        None => ControlUnit {
            lowest: u32::MAX,
            count: 0,
        },
    }
}

// The part in hand, where one is given.
fn part_of(question: Option<Question>) -> Option<u64>
    ensures { result ≡ part_of question }
{
    question?.part
}

// The line of a refusal: its number alone.
#[tactic(auto, using(text::proofs::Writing::length_line_32))]
fn put_refusal(refusal: Refusal, text: &mut Text<128>)
    requires { length text.old + 19 ≤ 128 }
    ensures { text.new ≡ text.old ++ line refused_key (number_of refusal) }
{
    text.put_line(b"refused=", u64::from(refusal.number()));
}

// The line of a part in hand.
fn put_hand(hand: Result<Hand, Refusal>, text: &mut Text<128>)
    requires { length text.old + 19 ≤ 128 }
    ensures { text.new ≡ text.old ++ hand_text hand }
{
    match hand {
        Ok(Hand::ThatOne) => text.put_bytes(b"hand=that one\n"),
        Ok(Hand::Equal) => text.put_bytes(b"hand=equal\n"),
        Ok(Hand::Older) => text.put_bytes(b"hand=older\n"),
        Ok(Hand::NotListed) => text.put_bytes(b"hand=not listed\n"),
        Err(refusal) => put_refusal(refusal, text),
    }
}

// The answers of a medium that was recovered.
#[tactic(auto, using(crate::proofs::Said::answer_lines))]
fn put_answer(medium: &[u8], unit: ControlUnit, part: Option<u64>, text: &mut Text<128>)
    requires { length text.old + 81 ≤ 128 }
    ensures { text.new ≡ text.old ++ answer_text medium.now unit.lowest unit.count part }
{
    match cell_to_order(medium, unit) {
        Ok(best) => {
            text.put_cell(best.cell, best.value);
            if let Some(number) = part {
                put_hand(part_in_hand(medium, unit, number), text);
            }
        }
        Err(refusal) => put_refusal(refusal, text),
    }
}

// The refusal, or the answers.
#[tactic(auto, using(crate::proofs::Said::screens))]
fn text_of(
    refused: Option<Refusal>,
    medium: &[u8],
    unit: ControlUnit,
    part: Option<u64>,
) -> Text<128>
    ensures { result ≡ refused_or (number_told refused) (answer_text medium.now unit.lowest unit.count part) }
{
    let mut text = Text::new();
    match refused {
        Some(refusal) => put_refusal(refusal, &mut text),
        None => put_answer(medium, unit, part, &mut text),
    }
    text
}

// What the counter says of the medium to what is asked. The medium is recovered where it stands. Goes over the table once for each cell that
// recovery stores, and twice over the span.
pub fn screen(medium: &mut [u8], asked: &[u8]) -> Text<128>
    ensures text { result ≡ screen_text asked.now medium.old }
    ensures medium_after { medium.new ≡ (recovered medium.old).medium }
{
    let question = asked_in(asked);
    let unit = unit_of(question);
    let span = span_refusal(medium, unit);
    let start = recover(medium);
    let refused = span.err().or(start.err());
    text_of(refused, medium, unit, part_of(question))
}
