//! Complexes, worked by hand.
use cell_complex::Sign::{Minus, Plus};
use cell_complex::{AddFault, BuildFault, Complex, Face, FaceFault};
use std::alloc::Global;
use std::process::Abort;
use std::test::Fail;

/// The complex of these cells and faces.
pub(crate) fn built(
    rt: &impl Abort,
    alloc: Global,
    dims: &[u8],
    faces: &[Face],
) -> Result<Complex, BuildFault> {
    assert!(rt; Complex::fits(dims));
    Complex::build(alloc, dims, faces)
}

/// Two faces from 0 to 2.
const TWICE: [Face; 2] = [
    Face {
        s: 0,
        t: 2,
        sign: Plus,
    },
    Face {
        s: 0,
        t: 2,
        sign: Minus,
    },
];

const FAULT: FaceFault = FaceFault::TwiceFace { s: 0, t: 2 };

#[test]
fn builds_no_face_twice(rt: HostRuntime) {
    let fault = built(&rt, rt.alloc(), &[0, 0, 1], &TWICE).err();
    let at = BuildFault::At {
        face: 1,
        fault: FAULT,
    };
    assert!(rt; fault == Some(at));
}

#[test]
fn adds_no_face_twice(rt: HostRuntime) -> Result<(), Fail> {
    let mut edge = built(&rt, rt.alloc(), &[0, 0, 1], &TWICE[..1])?;
    assert!(rt; edge.add_face(TWICE[1]) == Err(AddFault::Face(FAULT)));
    assert!(rt; edge.face_count() == 1);
    Ok(())
}

/// Whether the complex has this face at the place.
fn has_face(c: &Complex, place: u32, face: Face) -> bool {
    place < c.face_count()
        && c.face_at(place) == face
        && c.place(face.s, face.t) == Some(place)
        && c.sign(face.s, face.t) == Some(face.sign)
}

/// Whether the complex has these faces, each at its place.
fn has_faces(c: &Complex, faces: &[Face]) -> bool {
    for place in 0..c.face_count() {
        match faces.get(place as usize) {
            Some(face) => {
                if !has_face(c, place, *face) {
                    return false;
                }
            }
            None => return false,
        }
    }
    c.face_count() as usize == faces.len()
}

/// Whether the cell has these faces and cofaces.
fn has_neighbours(c: &Complex, cell: u32, faces: &[u32], cofaces: &[u32]) -> bool {
    (cell as usize) < c.dims().len() && c.faces_of(cell) == faces && c.cofaces_of(cell) == cofaces
}

/// Whether these two cells are all between `s` and `u`, in order.
fn has_middles(c: &Complex, s: u32, u: u32, first: u32, second: u32) -> bool {
    if s as usize >= c.dims().len() || u as usize >= c.dims().len() {
        return false;
    }
    let mut middles = c.middles(s, u);
    middles.next() == Some(first) && middles.next() == Some(second) && middles.next().is_none()
}

/// The vertices 0, 1 and 2, the edges 01, 02 and 12, which are the cells 3, 4 and 5, and the triangle, the cell 6.
const TRIANGLE: [u8; 7] = [0, 0, 0, 1, 1, 1, 2];

/// Faces of cells: `(s t sign)`.
macro_rules! faces {
    ($(($s:literal $t:literal $sign:ident))*) => {
        [$(Face { s: $s, t: $t, sign: $sign }),*]
    };
}

/// Minus at the lesser vertex of an edge and plus at the greater; the edges of the triangle plus, minus and plus.
const FACES: [Face; 9] = faces![
    (0 3 Minus) (1 3 Plus) (0 4 Minus) (2 4 Plus) (1 5 Minus) (2 5 Plus)
    (3 6 Plus) (4 6 Minus) (5 6 Plus)
];

/// Whether the copy of the triangle has its cells and faces.
fn is_copied(rt: &impl Abort, alloc: Global) -> Result<bool, Fail> {
    let c = built(rt, alloc, &TRIANGLE, &FACES)?;
    let copy = c.copy(alloc)?;
    Ok(copy.dims() == &TRIANGLE[..] && has_faces(&copy, &FACES))
}

#[test]
fn copies_a_triangle(rt: HostRuntime) -> Result<(), Fail> {
    assert!(rt; is_copied(&rt, rt.alloc())?);
    Ok(())
}

#[test]
fn tells_the_neighbours_in_a_triangle(rt: HostRuntime) -> Result<(), Fail> {
    let c = built(&rt, rt.alloc(), &TRIANGLE, &FACES)?;
    assert!(rt; has_neighbours(&c, 4, &[0, 2], &[6]));
    assert!(rt; has_middles(&c, 1, 6, 3, 5));
    Ok(())
}
