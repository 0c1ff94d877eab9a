// Exactly how many blocks each call reads: docs/COSTS.md has the table.
use crate::calls::reads;
use crate::image::{example, handle};

#[test]
fn on_a_good_card(rt: HostRuntime) {
    let mut image = example();
    let alto = handle(1, 2);
    assert_eq!(rt;
        reads(&mut image, b"mass", b"mass/bass", &alto, 1),
        [2, 3, 5, 4, 1, 18, 2]
    );
    assert_eq!(rt;
        reads(&mut image, b"tenor", b"", &alto, 2),
        [2, 2, 0, 4, 1, 18, 1]
    );
    assert_eq!(rt;
        reads(&mut image, b"a/b", b"a//b", &handle(9, 2), 0),
        [2, 0, 0, 4, 0, 18, 0]
    );
}

#[test]
fn on_a_bad_card(rt: HostRuntime) {
    let mut image = example();
    image[512] = 2;
    assert_eq!(rt;
        reads(&mut image, b"mass", b"mass/bass", &handle(1, 2), 0),
        [2, 0, 0, 0, 0, 0, 0]
    );
    image[0] = 0;
    assert_eq!(rt;
        reads(&mut image, b"mass", b"mass/bass", &handle(1, 2), 0),
        [1, 0, 0, 0, 0, 0, 0]
    );
}
