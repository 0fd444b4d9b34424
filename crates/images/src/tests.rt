use crate::{ImageRefusal, image_of, load};
use extents::{Drive, HotSwap, Shape};
use std::alloc::Alloc;
use std::process::Abort;

// The shape of two units, of 40 bytes each.
fn two_units(rt: &impl Abort) -> Shape {
    let Ok(shape) = Shape::new(1, 1, 8, 1) else {
        panic!(rt; "no shape");
    };
    shape
}

// Bytes of which the two units differ, and each byte from the next.
fn bytes_of(at: usize) -> u8 {
    (at % 251) as u8
}

#[test]
fn a_loaded_image_is_the_image_of_its_drive(rt: HostRuntime) {
    let mut image = [0; 80];
    for (at, byte) in image.iter_mut().enumerate() {
        *byte = bytes_of(at);
    }
    let Ok(mut drive) = load(rt.alloc(), &two_units(&rt), &image) else {
        panic!(rt; "no drive");
    };
    let size = drive.unit_bytes();
    let Ok(Some(again)) = image_of(rt.alloc(), &mut drive, size) else {
        panic!(rt; "no image");
    };
    assert!(rt; again[..] == image[..]);
    drive.lose();
    assert!(rt; matches!(image_of(rt.alloc(), &mut drive, size), Ok(None)));
}

#[test]
fn an_image_of_a_wrong_length_is_refused(rt: HostRuntime) {
    for length in [0, 40, 79] {
        let refused = load(rt.alloc(), &two_units(&rt), &[0; 80][..length]);
        assert!(rt; matches!(refused, Err(ImageRefusal::Length)));
    }
    assert!(rt;
        matches!(
            load(rt.alloc(), &two_units(&rt), &[0; 81]),
            Err(ImageRefusal::Length)
        )
    );
    assert!(rt; ImageRefusal::Length.number() == 2);
}
