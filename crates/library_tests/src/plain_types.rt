//! The plain types: numbers of ids, sides and areas, when two allocations are equal, which values hash alike, and the
//! default options, all by the names under which `etagere` gives them to its users.

use crate::assertions::{equal, holds, holds_at};
use etagere::{
    AllocId, Allocation, AllocatorOptions, DEFAULT_OPTIONS, Point, Rectangle, Size, point2, size2,
};
use std::fmt::Debug;
use std::hash::{DefaultHasher, Hash, Hasher};
use std::process::Abort;

#[test]
fn an_id_is_its_number(rt: HostRuntime) {
    for number in [0, 1, 65536, 4294967295] {
        equal(&rt, &AllocId::deserialize(number).serialize(), &number);
    }
}

#[test]
fn default_options_are_the_constant(rt: HostRuntime) {
    equal(&rt, &AllocatorOptions::default(), &DEFAULT_OPTIONS);
    equal(&rt, &DEFAULT_OPTIONS.alignment, &size2(1, 1));
    holds(&rt, !DEFAULT_OPTIONS.vertical_shelves);
    equal(&rt, &DEFAULT_OPTIONS.num_columns, &1);
}

#[test]
fn geometry_counts_sides_and_areas(rt: HostRuntime) {
    let rectangle = Rectangle {
        min: point2(2, 3),
        max: point2(12, 7),
    };
    equal(&rt, &rectangle.size(), &size2(10, 4));
    equal(&rt, &rectangle.area(), &40);
    equal(&rt, &size2(46341, 46340).area(), &2147441940);
    for (size, is_empty) in [
        (size2(1, 1), false),
        (size2(0, 1), true),
        (size2(5, -1), true),
    ] {
        equal(&rt, &size.is_empty(), &is_empty);
    }
}

fn allocation(id: u32, corners: [i32; 4]) -> Allocation {
    let [x0, y0, x1, y1] = corners;
    Allocation {
        id: AllocId::deserialize(id),
        rectangle: Rectangle {
            min: point2(x0, y0),
            max: point2(x1, y1),
        },
    }
}

#[test]
fn allocations_are_equal_by_id_and_rectangle(rt: HostRuntime) {
    let one = allocation(7, [1, 2, 3, 4]);
    holds(&rt, one == allocation(7, [1, 2, 3, 4]));
    for other in [
        allocation(6, [1, 2, 3, 4]),
        allocation(65543, [1, 2, 3, 4]),
        allocation(7, [0, 2, 3, 4]),
        allocation(7, [1, 0, 3, 4]),
        allocation(7, [1, 2, 5, 4]),
        allocation(7, [1, 2, 3, 5]),
    ] {
        holds_at(&rt, one != other, &(one, other));
        holds_at(&rt, !(one == other), &(one, other));
    }
}

fn hash_of(value: &impl Hash) -> u64 {
    let mut state = DefaultHasher::new();
    value.hash(&mut state);
    state.finish()
}

/// Of these, two have the same hash exactly where they are equal.
fn are_hashed_by_what_is_compared<T: Eq + Hash + Debug>(rt: &impl Abort, values: &[T]) {
    for one in values {
        for other in values {
            let is_alike = hash_of(one) == hash_of(other);
            holds_at(rt, is_alike == (*one == *other), &(one, other));
        }
    }
}

#[test]
fn equal_values_hash_alike(rt: HostRuntime) {
    let points = [point2(1, 2), point2(2, 1), Point { x: 1, y: 2 }];
    are_hashed_by_what_is_compared(&rt, &points);
    let [one, other, same] = points;
    let rectangles = [
        Rectangle {
            min: one,
            max: other,
        },
        Rectangle {
            min: other,
            max: one,
        },
        Rectangle {
            min: same,
            max: other,
        },
    ];
    are_hashed_by_what_is_compared(&rt, &rectangles);
    let sizes = [
        size2(1, -2),
        size2(-2, 1),
        Size {
            width: 1,
            height: -2,
        },
    ];
    are_hashed_by_what_is_compared(&rt, &sizes);
    let vertical = AllocatorOptions {
        vertical_shelves: true,
        ..DEFAULT_OPTIONS
    };
    let options = [DEFAULT_OPTIONS, vertical, AllocatorOptions::default()];
    are_hashed_by_what_is_compared(&rt, &options);
    let id = AllocId::deserialize(65536);
    are_hashed_by_what_is_compared(&rt, &[id, AllocId::deserialize(1), id]);
}
