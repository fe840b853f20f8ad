//! Where the fields of a row end.

ghost use Rattle.std.specs.Prelude.{◌≡◌, ◌∷◌, ◌++◌, [], length, IfOk, IfSome, OnErr, OnOk};
ghost use Rattle.ruled_row.specs.Ends.{places_of};
ghost use Rattle.ruled_row.specs.Parts.{IsPart};

use arrayvec::ArrayVec;
use std::alloc::{AllocError, Global};

/// Where the fields of a row end, in bytes from the start of its text.
#[derive(Clone, Drop)]
pub(crate) enum Ends {
    /// The ends of up to eight fields of a short text: they lie in the row itself.
    Few(ArrayVec<u16, 8>),
    /// All others.
    Many(Vec<u32>),
}

/// This place as it is kept. A row of 4 GiB or more is out of memory.
pub(crate) fn kept_place(place: usize) -> Result<u32, AllocError>
    ensures { IfOk result (λ kept. kept ≡ place) }
{
    if place > u32::MAX as usize {
        return Err(AllocError);
    }
    Ok(place as u32)
}

// These places, if they are those of a short row.
fn few(places: &[u32]) -> Option<ArrayVec<u16, 8>>
    ensures { IfSome result (λ few. few.items ≡ places.now) }
{
    if places.len() > 8 {
        return None;
    }
    let mut few = ArrayVec::new();
    for place in places {
        if few.is_full() || *place > u16::MAX as u32 {
            return None;
        }
        few.push(*place as u16);
    }
    Some(few)
}

// These places and one more.
fn many(alloc: Global, few: &[u16], place: usize) -> Result<Vec<u32>, AllocError>
    ensures { IfOk result (λ many. many.items ≡ few.now ++ place ∷ []) }
{
    let mut many = Vec::with_capacity(alloc, few.len().saturating_mul(2))?;
    for end in few {
        many.push(*end as u32)?;
    }
    many.push(kept_place(place)?)?;
    Ok(many)
}

/// Where the field at a place begins and ends, if there is one, by the ends of all fields.
pub(crate) fn part_of(ends: &[u32], field: usize) -> Option<(usize, usize)>
    ensures { IsPart ends.now field result }
{
    if field >= ends.len() {
        return None;
    }
    let end = ends[field] as usize;
    if field == 0 {
        Some((0, end))
    } else {
        Some((ends[field - 1] as usize, end))
    }
}

// Where a field begins and ends, if its row keeps few ends.
fn part_of_few(ends: &[u16], field: usize) -> Option<(usize, usize)>
    ensures { IsPart ends.now field result }
{
    if field >= ends.len() {
        return None;
    }
    let end = ends[field] as usize;
    if field == 0 {
        Some((0, end))
    } else {
        Some((ends[field - 1] as usize, end))
    }
}

impl Ends {
    /// Of no field.
    pub(crate) fn new() -> Ends
        ensures { places_of result ≡ [] }
    {
        Ends::Few(ArrayVec::new())
    }

    /// At these places.
    pub(crate) fn at(alloc: Global, places: &[u32]) -> Result<Ends, AllocError>
        ensures { IfOk result (λ ends. places_of ends ≡ places.now) }
    {
        match few(places) {
            Some(few) => Ok(Ends::Few(few)),
            None => Ok(Ends::Many(Vec::from_slice(alloc, places)?)),
        }
    }

    /// How many there are.
    pub(crate) fn len(&self) -> usize
        ensures { result ≡ length (places_of self.now) }
    {
        match self {
            Ends::Few(few) => few.len(),
            Ends::Many(many) => many.len(),
        }
    }

    /// Where this field begins and ends, if there is one.
    pub(crate) fn part(&self, field: usize) -> Option<(usize, usize)>
        ensures { IsPart (places_of self.now) field result }
    {
        match self {
            Ends::Few(few) => part_of_few(few.as_slice(), field),
            Ends::Many(many) => part_of(many.as_slice(), field),
        }
    }

    /// Adds the end of one more field.
    pub(crate) fn push(&mut self, alloc: Global, place: usize) -> Result<(), AllocError>
        ensures ok { OnOk result (places_of self.new ≡ places_of self.old ++ place ∷ []) }
        ensures err { OnErr result (places_of self.new ≡ places_of self.old) }
    {
        match self {
            Ends::Few(few) if !few.is_full() && place <= u16::MAX as usize => {
                few.push(place as u16);
                Ok(())
            }
            Ends::Few(few) => {
                let many = many(alloc, few.as_slice(), place)?;
                *self = Ends::Many(many);
                Ok(())
            }
            Ends::Many(many) => {
                many.push(kept_place(place)?)?;
                Ok(())
            }
        }
    }
}
