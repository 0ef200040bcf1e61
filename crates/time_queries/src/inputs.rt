// How the input changes from call to call, so that no call can be left out because it was made before.
ghost use Rattle.std.specs.Prelude.{◌≡◌, ◌≤◌, length};
ghost use Rattle.time_queries.specs.Inputs.{flipped, other, next_start, starts_of, window_length};

// Changes the first word of rule 0's body by 256, and the next time back: a label under 256 stays a label, so that an accepted file stays accepted.
pub(crate) fn flip(file: &mut [u8])
    ensures { file.new ≡ flipped file.old }
{
    if 20 <= file.len() {
        file[19] = other_byte(file[19]);
    }
}

fn other_byte(b: u8) -> u8
    ensures { result ≡ other b }
{
    b ^ 1
}

// How many positions a call can be made at: at least one.
#[derive(Clone, Copy)]
pub struct Starts {
    pub count: u64,
    ghost some: { 1 ≤ count },
}

impl Starts {
    // Those of a window of the given length in a tree of so many nodes; 1 where there is none, so that the call is made and refused.
    pub(crate) fn of(nodes: u64, length: u64) -> Starts
        requires { 1 ≤ length }
        ensures { result.count ≡ starts_of nodes length }
    {
        Starts {
            count: nodes.saturating_sub(length) + 1,
        }
    }

    // The position after p. A step of about 0.618 times 10^12, so that positions spread over a large tree and not over its first nodes alone.
    pub(crate) fn after(self, p: u64) -> u64
        ensures { result ≡ next_start self.count p }
    {
        p.wrapping_add(618033988749) % self.count
    }
}

// About half of a small tree, so that windows differ there too; at most 256 words.
pub(crate) fn window_length(nodes: u64) -> usize
    ensures { (result ≡ window_length nodes) × (1 ≤ result) × (result ≤ 256) }
{
    (nodes / 2 + 1).min(256) as usize
}
