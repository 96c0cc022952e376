// What no clause says: groups and subgroups worked out by hand.
ghost use Rattle.std.specs.Prelude.{◌<◌, All};
ghost use Rattle.df_group.specs.Elements.{order_of};

use super::*;
use arrayvec::ArrayVec;

// The element with these residues, or 0.
fn element(shape: &Shape, residues: &[u16]) -> Elem
    ensures { result < order_of shape.now }
{
    match shape.elem(residues) {
        Some(e) => e,
        None => shape.zero(),
    }
}

// Which of the numbers below 128 are members.
fn numbers(subgroup: &Subgroup) -> ArrayVec<u8, 128> {
    let mut numbers = ArrayVec::new();
    for e in 0..128u8 {
        if subgroup.has(Elem(e)) && !numbers.is_full() {
            numbers.push(e);
        }
    }
    numbers
}

#[test]
fn refusals_come_in_order(rt: HostRuntime) {
    assert!(rt; matches!(Shape::new(&[]), Err(ShapeError::NoFactor)));
    assert!(rt;
        matches!(
            Shape::new(&[1, 2, 2, 2, 2, 2, 2, 2]),
            Err(ShapeError::TooManyFactors)
        )
    );
    assert!(rt; matches!(Shape::new(&[2, 200, 1]), Err(ShapeError::FactorRange(1))));
    assert!(rt; matches!(Shape::new(&[7, 1]), Err(ShapeError::FactorRange(1))));
    assert!(rt; matches!(Shape::new(&[3, 43]), Err(ShapeError::OrderTooLarge)));
    assert!(rt; matches!(Shape::new(&[65535, 2]), Err(ShapeError::FactorRange(0))));
    assert!(rt; Shape::new(&[2, 2, 2, 2, 2, 2, 2]).is_ok());
    assert!(rt; Shape::new(&[128]).is_ok());
}

#[test]
fn arithmetic_of_z7(rt: HostRuntime) {
    let Ok(z7) = Shape::new(&[7]) else {
        assert!(rt; false);
        return;
    };
    assert_eq!(rt; z7.order(), 7);
    assert_eq!(rt; z7.exponent(), 7);
    let two = element(&z7, &[2]);
    let three = element(&z7, &[3]);
    let five = element(&z7, &[5]);
    assert_eq!(rt; z7.add(three, five), Elem(1));
    assert_eq!(rt; z7.neg(three), Elem(4));
    assert_eq!(rt; z7.sub(two, five), Elem(4));
    assert_eq!(rt; z7.times(10, three), Elem(2));
    assert_eq!(rt; z7.times(4_294_967_295, three), Elem(2));
    assert!(rt; z7.elem(&[7]).is_none());
    assert!(rt; z7.elem(&[1, 1]).is_none());
    assert!(rt; z7.elem(&[]).is_none());
    assert!(rt; z7.is_unit(6));
    assert!(rt; z7.is_unit(8));
    assert!(rt; !z7.is_unit(14));
    assert!(rt; !z7.is_unit(0));
}

#[test]
fn arithmetic_of_z4_z6(rt: HostRuntime) {
    let Ok(shape) = Shape::new(&[4, 6]) else {
        assert!(rt; false);
        return;
    };
    assert_eq!(rt; *shape.copied().factors(), *[4u16, 6].as_slice());
    assert_eq!(rt; shape.order(), 24);
    assert_eq!(rt; shape.exponent(), 12);
    let a = element(&shape, &[3, 5]);
    let b = element(&shape, &[2, 3]);
    assert_eq!(rt; a, Elem(23));
    assert_eq!(rt; *shape.coords(a).as_slice(), *[3u16, 5].as_slice());
    assert_eq!(rt; shape.add(a, b), Elem(8));
    assert_eq!(rt; shape.neg(a), Elem(7));
    assert_eq!(rt; shape.sub(b, a), Elem(22));
    assert_eq!(rt; shape.times(3, a), Elem(9));
    assert!(rt; shape.is_unit(5));
    assert!(rt; !shape.is_unit(9));
}

#[test]
fn subgroup_of_z2_z6(rt: HostRuntime) {
    let Ok(shape) = Shape::new(&[2, 6]) else {
        assert!(rt; false);
        return;
    };
    let a = element(&shape, &[1, 3]);
    let b = element(&shape, &[0, 2]);
    let subgroup = Subgroup::generate(&shape, &[a, b]);
    assert_eq!(rt;
        *numbers(&subgroup).as_slice(),
        *[0u8, 2, 4, 7, 9, 11].as_slice()
    );
    assert_eq!(rt; subgroup.order(), 6);
    assert_eq!(rt;
        *subgroup.canonical(&shape).as_slice(),
        *[Elem(2), Elem(7)].as_slice()
    );
    assert!(rt; subgroup.same_coset(&shape, element(&shape, &[0, 1]), element(&shape, &[1, 4])));
    assert!(rt; !subgroup.same_coset(&shape, element(&shape, &[0, 1]), element(&shape, &[1, 5])));
    assert!(rt; subgroup == Subgroup::generate(&shape, &[b, a, b]));
    assert!(rt; subgroup != Subgroup::trivial(&shape));
}

#[test]
fn subgroups_of_z3_z3(rt: HostRuntime) {
    let Ok(shape) = Shape::new(&[3, 3]) else {
        assert!(rt; false);
        return;
    };
    let subgroup = Subgroup::generate(&shape, &[element(&shape, &[1, 1])]);
    assert_eq!(rt; *numbers(&subgroup).as_slice(), *[0u8, 4, 8].as_slice());
    assert!(rt; subgroup.same_coset(&shape, element(&shape, &[0, 1]), element(&shape, &[1, 2])));
    assert!(rt; !subgroup.same_coset(&shape, element(&shape, &[0, 1]), element(&shape, &[0, 2])));
    let trivial = Subgroup::generate(&shape, &[]);
    assert!(rt; trivial == Subgroup::trivial(&shape));
    assert_eq!(rt; trivial.order(), 1);
    assert!(rt; trivial.canonical(&shape).is_empty());
    let whole = Subgroup::whole(&shape);
    assert_eq!(rt; whole.order(), 9);
    assert_eq!(rt;
        *whole.canonical(&shape).as_slice(),
        *[Elem(1), Elem(3)].as_slice()
    );
}

#[test]
fn seven_generators_are_enough(rt: HostRuntime) {
    let Ok(shape) = Shape::new(&[2, 2, 2, 2, 2, 2, 2]) else {
        assert!(rt; false);
        return;
    };
    let whole = Subgroup::whole(&shape);
    assert_eq!(rt; whole.order(), 128);
    assert_eq!(rt;
        *whole.canonical(&shape).as_slice(),
        *[
            Elem(1),
            Elem(2),
            Elem(4),
            Elem(8),
            Elem(16),
            Elem(32),
            Elem(64)
        ]
        .as_slice()
    );
    assert!(rt; whole.has(Elem(127)));
    assert!(rt; !whole.has(Elem(128)));
    assert!(rt; !whole.has(Elem(255)));
}
