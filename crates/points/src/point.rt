//! Points by area and number, and their indices in a bank.
ghost use Rattle.std.specs.Prelude.{◌≡◌, Some, codes};
ghost use Rattle.std.specs.Result.{result_ok};
ghost use Rattle.points.specs.Points.{area_code, area_of, first_index, index_of};

use std::error::Error;
use std::fmt;

/// The three areas of 256 points each, with their numbers in cards and words, where 0 stands for no point.
///
/// The default fills the places of a row that are not used.
#[derive(Clone, Copy, PartialEq, Eq, Debug, Default)]
pub enum Area {
    #[default]
    Input = 1,
    Output = 2,
    Marker = 3,
}

/// A number that is no area's.
#[derive(Clone, Copy, PartialEq, Eq, Debug)]
pub struct NoSuchArea;

impl From<Area> for u16 {
    ghost from_gives = { λ area code. code ≡ area_code area };

    fn from(area: Area) -> u16 {
        area as u16
    }
}

impl TryFrom<u16> for Area {
    type Error = NoSuchArea;

    ghost try_from_gives = { λ code answer. result_ok answer ≡ area_of code };

    fn try_from(code: u16) -> Result<Area, NoSuchArea> {
        match code {
            1 => Ok(Area::Input),
            2 => Ok(Area::Output),
            3 => Ok(Area::Marker),
            _ => Err(NoSuchArea),
        }
    }
}

impl fmt::Display for NoSuchArea {
    ghost output = { λ _. Some (codes "no area has this number") };

    fn fmt<W: fmt::Write>(&self, f: &mut fmt::Formatter<W>) -> fmt::Result {
        f.write_str("no area has this number")
    }
}

impl Error for NoSuchArea {}

impl Area {
    /// The index of the area's first point.
    fn first_index(self) -> usize
        ensures { result ≡ first_index self }
    {
        match self {
            Area::Input => 0,
            Area::Output => 256,
            Area::Marker => 512,
        }
    }
}

/// An input, an output or a marker, by its number in its area.
#[derive(Clone, Copy, PartialEq, Eq, Debug, Default)]
pub struct Point {
    pub area: Area,
    pub number: u8,
}

impl Point {
    /// Where a bank keeps the point: inputs first, then outputs, then markers.
    pub fn index(self) -> usize
        ensures { result ≡ index_of self }
    {
        self.area.first_index() + usize::from(self.number)
    }
}
