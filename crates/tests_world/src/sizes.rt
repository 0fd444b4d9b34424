// Sizes and members that are refused.
use crate::asserts::check;
use crate::script::new_world;
use step_core::{Answer, Class, Member, Refusal, Shape, ShapeRefusal, World};

#[test]
fn sizes_are_refused_by_the_first_that_is_out(rt: HostRuntime) {
    check!(rt; matches!(Shape::new(0, 2, 8, 16), Err(ShapeRefusal::Range(1))));
    check!(rt; matches!(Shape::new(8, 2, 12, 16), Err(ShapeRefusal::Range(3))));
    check!(rt; Shape::new(8, 2, 8, 16).is_ok());
}

fn member_at((drive, extent): (u8, u16)) -> Member {
    Member { drive, extent }
}

// What making a group is answered, 0 or the number of a refusal.
fn made(world: &mut World, rt: &HostRuntime, places: [(u8, u16); 3]) -> u8 {
    let [one, two, three] = places;
    let members = [member_at(one), member_at(two), member_at(three)];
    match world.make(rt.alloc(), Class::Mirrored, &members) {
        Ok(Answer::Made(_)) => 0,
        Ok(Answer::Refused(refusal)) => refusal.number(),
        _ => 255,
    }
}

#[test]
fn groups_are_refused_in_the_order_of_the_checks(rt: HostRuntime) {
    let mut world = new_world(&rt, rt.alloc());
    let cases = [
        ([(0, 0), (1, 0), (2, 0)], 0),
        ([(0, 1), (0, 2), (1, 1)], 13),
        ([(0, 0), (1, 1), (2, 1)], 12),
        ([(0, 8), (1, 1), (2, 1)], 18),
    ];
    for (places, number) in cases {
        check!(rt; made(&mut world, &rt, places) == number);
    }
    check!(rt; Refusal::Memory.number() == 1);
}
