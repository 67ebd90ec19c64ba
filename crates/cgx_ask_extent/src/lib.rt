// The extent of a cell: the least rectangle around its boxes, polygon points and wire points. The file is checked first; then its known
// records are gone through, up to the end of the cell.
#![tactic(auto)]

ghost use Rattle.std.specs.Prelude.{◌≡◌, ◌≤◌, length, drop};
ghost use Rattle.cgx_spec.specs.Numbers.{longs_of};
ghost use Rattle.cgx_spec.specs.Files.{Accepted};
ghost use Rattle.cgx_read_sequence.specs.Sequence.{Along};
ghost use Rattle.cgx_ask_extent.specs.Extent.{extent_role, pairs, min_z, max_z, wider as wider_by, widest, extent_of};
ghost use Rattle.cgx_ask_extent.specs.Cells.{hull_from, CellIn, HullIn};

use cgx_format_kinds::{Point, Poly, Sides, Wire};
use cgx_read_check::check;
use cgx_read_sequence::next_known;
use cgx_spec::{Fault, Kind, Refusal};
use numbers::long_at;

// What a record is to an extent: it opens a cell, it has points from this byte of its body on, or neither. Three cases, which an `Option` of an `Option` would not name.
#[derive(Clone, Copy)]
pub enum ExtentRole {
    Opens,
    Points(usize),
    Neither,
}

// The extent of cell k of a file, from 0, or none where it has no points: else the file's refusal, or 16 where it has no such cell.
pub fn extent(file: &[u8], k: usize) -> Result<Option<Sides>, Refusal>
    ensures { result ≡ extent_of file.now k }
{
    check(file)?;
    match cell_start(file, k) {
        None => Err(Fault::NoSuch.nowhere()),
        Some(at) => Ok(hull_of(file, at)),
    }
}

// After the STRUCT of cell k, if there is such a cell. The offset goes on by hand, here and below: each record says how far the next one is, and the contract speaks of the offset (no plainer).
fn cell_start(file: &[u8], k: usize) -> Option<usize>
    requires { Accepted file.now }
    ensures { CellIn file.now k result }
{
    let mut at: usize = 4;
    let mut left = k;
    while let Some(r) = next_known(file, at) {
        at = r.at + r.size;
        if let ExtentRole::Opens = extent_role(r.kind) {
            if left == 0 {
                return Some(at);
            }
            left -= 1;
        }
    }
    None
}

// Around the points of the records up to the next STRUCT.
fn hull_of(file: &[u8], from: usize) -> Option<Sides>
    requires { Along file.now from }
    ensures { HullIn file.now from result }
{
    let mut at = from;
    let mut hull = None;
    while let Some(r) = next_known(file, at) {
        let body = r.at + 4;
        at = r.at + r.size;
        match extent_role(r.kind) {
            ExtentRole::Opens => {
                return hull;
            }
            ExtentRole::Points(skip) => {
                hull = grown(hull, &file[body..at], skip);
            }
            ExtentRole::Neither => {}
        }
    }
    hull
}

// A wire's points come after its width.
fn extent_role(k: Kind) -> ExtentRole
    ensures { result ≡ extent_role k }
{
    match k {
        Kind::Struct => ExtentRole::Opens,
        Kind::Box | Kind::Poly => ExtentRole::Points(0),
        Kind::Wire => ExtentRole::Points(Wire::WIDTH_SIZE),
        _ => ExtentRole::Neither,
    }
}

// ---- rectangles

// The least rectangle around one, or nothing, and the points of a body from a byte on.
fn grown(r: Option<Sides>, b: &[u8], from: usize) -> Option<Sides>
    requires { (length b.now ≤ 65530) × (from ≤ 65530) }
    ensures { result ≡ hull_from r (pairs (longs_of (drop from b.now))) }
{
    if b.len() < from + Poly::PAIR_SIZE {
        return r;
    }
    match r {
        None => {
            let x = long_at(b, from);
            let y = long_at(b, from + 4);
            let first = Sides {
                left: x,
                bottom: y,
                right: x,
                top: y,
            };
            Some(around(first, b, from + Poly::PAIR_SIZE))
        }
        Some(s) => Some(around(s, b, from)),
    }
}

// No exit but the end: four minima and maxima a point.
fn around(s: Sides, b: &[u8], from: usize) -> Sides
    requires { from ≤ length b.now }
    ensures { result ≡ widest s (pairs (longs_of (drop from b.now))) }
{
    let mut sides = s;
    for point in b[from..].chunks_exact(Poly::PAIR_SIZE) {
        let x = long_at(point, 0);
        let y = long_at(point, 4);
        sides = wider(sides, Point { x, y });
    }
    sides
}

fn wider(s: Sides, p: Point) -> Sides
    ensures { result ≡ wider_by s p }
{
    Sides {
        left: s.left.min(p.x),
        bottom: s.bottom.min(p.y),
        right: s.right.max(p.x),
        top: s.top.max(p.y),
    }
}
