// The order in which the call for C refuses.
ghost use Rattle.std.specs.Prelude.{◌<◌};

use crate::image::example;
use screen::leaf::gildreyk_leaf;

// The answer, and the first byte of a buffer of N sevens after it.
fn told<const N: usize>(image: &[u8], path: &[u8], leaf: u32) -> (u32, u8)
    requires { (0 < N) × (N < 4096) }
{
    let mut out = [7u8; N];
    let answer = gildreyk_leaf(image, path, leaf, &mut out);
    (answer, out[0])
}

#[test]
fn the_first_that_applies_is_told(rt: HostRuntime) {
    let image = example();
    assert_eq!(rt; told::<495>(&image[0..512], b"a//b", 70000), (1011, 7));
    assert_eq!(rt; told::<495>(&image[0..512], b"alto", 70000), (1012, 7));
    assert_eq!(rt; told::<496>(&image[512..], b"tenor", 0), (1003, 7));
    assert_eq!(rt; told::<496>(&image[0..5000], b"tenor", 0), (1004, 7));
    assert_eq!(rt; told::<496>(&image, b"alto/x", 70000), (1006, 7));
    assert_eq!(rt; told::<496>(&image, b"tenor/x", 70000), (1009, 7));
    assert_eq!(rt; told::<496>(&image, b"", 70000), (1006, 7));
    assert_eq!(rt; told::<496>(&image, b"alto", 65536), (1007, 7));
    assert_eq!(rt; told::<496>(&image, b"mass/bass", 0), (7, b'S'));
}
