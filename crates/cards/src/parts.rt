//! The links and coils of a rung, read from their fields.
ghost use Rattle.std.specs.Prelude.{◌≡◌, ◌<◌};
ghost use Rattle.cards.specs.Rungs.{point_of, contact_of, link_of, action_of, coil_of, link_at, coil_at};

use super::bits::Bits;
use super::fault::{CardCause, CardFault};
use super::part::Part;
use points::{Area, Point};
use wiring::{Action, Coil, Contact, Link};

fn point_of(area: u16, number: u16) -> Option<Point>
    requires { number < 256 }
    ensures { result ≡ point_of area number }
{
    Area::try_from(area).ok().map(|area| Point {
        area,
        number: number as u8,
    })
}

fn contact_of(kind: u16, area: u16, number: u16) -> Option<Contact>
    requires { number < 256 }
    ensures { result ≡ contact_of kind area number }
{
    match kind {
        0 => (area == 0 && number == 0).then_some(Contact::Wire),
        1 => point_of(area, number).map(Contact::Open),
        2 => point_of(area, number).map(Contact::Closed),
        _ => None,
    }
}

fn link_of(joints: u8, from: u16, to: u16, contact: Option<Contact>) -> Option<Link>
    requires from { from < 32 }
    requires to { to < 32 }
    ensures { result ≡ link_of joints from to contact }
{
    let link = Link {
        from: from as u8,
        to: to as u8,
        contact: contact?,
    };
    (link.from < joints && link.to < joints && link.from != link.to).then_some(link)
}

// A function and no `From`: the numbers of actions are the card's, and `Action` is of another crate.
fn action_of(action: u16) -> Action
    ensures { result ≡ action_of action }
{
    match action {
        0 => Action::Store,
        1 => Action::StoreNot,
        2 => Action::Set,
        _ => Action::Reset,
    }
}

fn coil_of(action: u16, point: Option<Point>) -> Option<Coil>
    ensures { result ≡ coil_of action point }
{
    let coil = Coil {
        action: action_of(action),
        point: point?,
    };
    matches!(coil.point.area, Area::Output | Area::Marker).then_some(coil)
}

/// From 5 bits, to 5, contact 2, area 2, number 8.
impl Part for Link {
    ghost width = { 22 };

    ghost part_at = { link_at };

    fn read(bits: &mut Bits<'_>, joints: u8) -> Result<Link, CardFault> {
        let bit = bits.at;
        let from = bits.field(5)?;
        let to = bits.field(5)?;
        let kind = bits.field(2)?;
        let area = bits.field(2)?;
        let number = bits.field(8)?;
        let link = link_of(joints, from, to, contact_of(kind, area, number));
        link.ok_or(CardCause::LinkField.at(bit))
    }
}

/// Action 2 bits, area 2, number 8.
impl Part for Coil {
    ghost width = { 12 };

    ghost part_at = { λ bytes _ at. coil_at bytes at };

    fn read(bits: &mut Bits<'_>, _: u8) -> Result<Coil, CardFault> {
        let bit = bits.at;
        let action = bits.field(2)?;
        let area = bits.field(2)?;
        let number = bits.field(8)?;
        let coil = coil_of(action, point_of(area, number));
        coil.ok_or(CardCause::CoilField.at(bit))
    }
}
