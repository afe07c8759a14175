// What a stack's slice may be.
#![tactic(auto)]

ghost use Rattle.std.specs.Prelude.{◌≡◌, ◌≤◌, length};
ghost use Rattle.truth.specs.Truth.{Says, First};
ghost use Rattle.frames.specs.Frames.{Frame, StackFits};

// How many places a stack's slice may have.
const MOST_FRAMES: usize = 1024;

// The first frame that is no node, or height. A loop, since `all` with a closure takes up to twice the instructions.
fn first_bad_frame(n: usize, stack: &[u16], height: usize) -> usize
    requires { height ≤ length stack.now }
    ensures { First (Frame n stack.now) height result }
{
    for i in 0..height {
        if n <= usize::from(stack[i]) {
            return i;
        }
    }
    height
}

// Whether a stack may be asked about: no more places than a slice may have, a height within it, and a node at each place below the height. The two are
// apart, and no slice of the frames alone, since a height above the slice is refused (6).
pub fn stack_fits(n: usize, stack: &[u16], height: usize) -> bool
    ensures { Says (StackFits n stack.now height) result }
{
    stack.len() <= MOST_FRAMES
        && height <= stack.len()
        && height <= first_bad_frame(n, stack, height)
}
