// The library for programs in C: one leaf of one file on a card image. The call is that of the crate `screen`.
#![tactic(auto)]

ghost use Rattle.std.specs.Prelude.{◌≡◌, length};
ghost use Rattle.rule.specs.Reading.{read_into};
ghost use Rattle.screen.specs.Screen.{screen_answer, told};

// A leaf of the file at a path of a card image, into the front of `out`: answers its length, at most 496, or 1,000 and
// the number of the refusal, which leaves `out` as it was.
#[unsafe(no_mangle)]
pub extern "C" fn gildreyk_leaf(image: &[u8], path: &[u8], leaf: u32, out: &mut [u8]) -> u32
    ensures answer { result ≡ told (screen_answer image.now path.now leaf (length out.old)) }
    ensures filled { out.new ≡ read_into out.old (screen_answer image.now path.now leaf (length out.old)) }
{
    screen::leaf::gildreyk_leaf(image, path, leaf, out)
}
