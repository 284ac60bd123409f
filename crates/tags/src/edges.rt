// Edge cases of the data sheet and the standard, as a theorem about the definitions that the contracts use.
ghost use Rattle.std.specs.Prelude.{◌≡◌, length};
ghost use Rattle.tags.specs.Edges.{edges, EdgesHold};

// How many rows of edge cases there are; the definitions agree with all of them.
pub fn edge_cases() -> usize
    ensures rows { result ≡ length edges }
    ensures hold { EdgesHold }
{
    14
}
