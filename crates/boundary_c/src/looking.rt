// Parts of what a host lends, as offsets: an entry, and the table.
ghost use Rattle.std.specs.Prelude.{[]};
ghost use Rattle.boundary.specs.Boundary.{lent_over};
ghost use Rattle.boundary.specs.Parts.{Looked, Viewed};

#[unsafe(no_mangle)]
pub extern "C" fn keeper_look(
    state: &[u32],
    n: u32,
    medium: &[u8],
    waiting: &[u8],
    value: &mut u64,
) -> u32
    ensures { Looked n (lent_over state.now medium.now [] [] [] waiting.now) result value.new }
{
    boundary::looking::keeper_look(state, n, medium, waiting, value)
}

#[unsafe(no_mangle)]
pub extern "C" fn keeper_table_view(medium: &[u8], value: &mut u64) -> u32
    ensures { Viewed medium.now result value.new }
{
    boundary::looking::keeper_table_view(medium, value)
}
