// The position resolver: from a reference and one of the seven forms of an offset to a latitude and a longitude.
// All numbers are in units of 0.1 microdegree. What each function answers is defined in specs/.
#![tactic(auto)]

ghost use Rattle.std.specs.Prelude.{◌≡◌, ◌≤◌, ◌<◌, ◌-◌, ◌^◌, pos, ◌+ℤ◌, get_or, true, false, ◌&&◌, IfSome, IfNone};
ghost use Rattle.position.specs.Ranges.{spans, inside, longitudes, latitudes, parallels, meridians, offsets, offset_widths};
ghost use Rattle.position.specs.Checked.{told};
ghost use Rattle.position.specs.Resolution.{resolution, at_kind, eastward, northward, kind_of, forms};
ghost use Rattle.position.specs.Resolution.Kind.{offset, coordinate};

use answers::Reason;
use basics::power;

// The forms: one to six carry offsets, the seventh a coordinate.
const FIRST_FORM: i64 = 1;

const LAST_FORM: i64 = 7;

const ABSOLUTE_FORM: usize = 7;

// The bits of an offset in forms one to six.
const OFFSET_WIDTHS: [u32; 6] = [12, 14, 16, 18, 22, 24];

// A number from `BELOW` below 0 to `ABOVE` above it: no other is made, and no other crate can make one or look into it. The four ranges have
// ends of their own, so each is a type of its own.
#[derive(Clone, Copy)]
struct Ranged<const BELOW: u32, const ABOVE: u32> {
    value: i64,
    ghost in_range: { inside (spans BELOW ABOVE) value ≡ true },
}

// A number of the type Longitude: the meridian of a point, or that there is no information.
type Longitude = Ranged<1_799_999_999, 1_800_000_001>;

// A number of the type Latitude: the parallel of a point, or that there is no information.
type Latitude = Ranged<900_000_000, 900_000_001>;

// The longitude of a point. Nothing else is moved along its axis, so that an offset is never added to "no information".
type Meridian = Ranged<1_799_999_999, 1_800_000_000>;

// The latitude of a point, likewise.
type Parallel = Ranged<900_000_000, 900_000_000>;

// How many bits an offset has, one of which is its sign.
#[derive(Clone, Copy)]
struct Width {
    bits: u32,
    ghost in_range: { (1 ≤ bits) × (bits ≤ 24) },
}

// A distance along an axis, which no coordinate is. The widest has 24 bits.
#[derive(Clone, Copy)]
struct Offset {
    value: i64,
    ghost in_range: { inside (offsets 24) value ≡ true },
}

// A coordinate of both axes, as it was sent: a point, or that there is no information.
#[derive(Clone, Copy)]
struct Coordinate {
    latitude: Latitude,
    longitude: Longitude,
}

// A coordinate that is a point.
#[derive(Clone, Copy)]
struct Point {
    latitude: Parallel,
    longitude: Meridian,
}

// The coordinates that a form means. Only a point is a resolved position.
#[derive(Clone, Copy, Debug, PartialEq, Eq, Hash)]
pub struct Place {
    pub latitude: i64,
    pub longitude: i64,
}

// Whether `value` lies in a range, whose ends `lowest` and `highest` belong to it.
#[tactic(auto, unfolding(crate::specs::Ranges::inside))]
fn within(value: i64, lowest: i64, highest: i64) -> bool
    ensures { result ≡ inside (record { lowest = lowest; highest = highest }) value }
{
    lowest <= value && value <= highest
}

impl<const BELOW: u32, const ABOVE: u32> Ranged<BELOW, ABOVE> {
    // The number `value`, where it is in the range.
    fn new(value: i64) -> Option<Self>
        ensures some { IfSome result (λ x. x.value ≡ value) }
        ensures none { IfNone result (inside (spans BELOW ABOVE) value ≡ false) }
    {
        if within(value, -(BELOW as i64), ABOVE as i64) {
            return Some(Ranged { value });
        }
        None
    }
}

impl Meridian {
    const LOWEST: i64 = -1_799_999_999;

    // How many there are: behind the last comes the first again.
    const PLACES: i64 = 3_600_000_000;

    // The meridian that lies so far to the east as `by` says, round the ring.
    fn eastward(self, by: Offset) -> Meridian
        ensures { result.value ≡ eastward self.value by.value }
    {
        let place = (self.value + by.value - Self::LOWEST).rem_euclid(Self::PLACES);
        Ranged {
            value: Self::LOWEST + place,
        }
    }
}

impl Parallel {
    // The parallel that lies so far to the north as `by` says, where there is one.
    fn northward(self, by: Offset) -> Option<Parallel>
        ensures some { IfSome result (λ x. x.value ≡ northward self.value by.value) }
        ensures none { IfNone result (inside parallels (northward self.value by.value) ≡ false) }
    {
        Self::new(self.value + by.value)
    }
}

impl Width {
    // The width of the offsets in a `form`, from the table.
    fn new(form: usize) -> Width
        requires { (1 ≤ form) × (form ≤ 6) }
        ensures { result.bits ≡ get_or offset_widths (form - 1) 0 }
    {
        Width {
            bits: OFFSET_WIDTHS[form - 1],
        }
    }

    // How many offsets of this width are below 0.
    fn half(self) -> i64
        ensures { result ≡ pos (2 ^ (self.bits - 1)) }
    {
        power(self.bits as usize - 1) as i64
    }
}

impl Offset {
    // The offset `value`, where so many bits as `width` says hold it.
    fn new(value: i64, width: Width) -> Option<Offset>
        ensures some { IfSome result (λ x. (x.value ≡ value) × (inside (offsets width.bits) value ≡ true)) }
        ensures none { IfNone result (inside (offsets width.bits) value ≡ false) }
    {
        let half = width.half();
        if within(value, -half, half - 1) {
            return Some(Offset { value });
        }
        None
    }
}

impl Coordinate {
    // The coordinate of this `latitude` and `longitude`, where each is a number of its type.
    fn new(latitude: i64, longitude: i64) -> Option<Coordinate>
        ensures some { IfSome result (λ x. (x.latitude.value ≡ latitude) × (x.longitude.value ≡ longitude)) }
        ensures none { IfNone result (inside latitudes latitude && inside longitudes longitude ≡ false) }
    {
        Some(Coordinate {
            latitude: Latitude::new(latitude)?,
            longitude: Longitude::new(longitude)?,
        })
    }

    // The point that it is, unless there is no information on an axis.
    fn point(self) -> Option<Point>
        ensures some { IfSome result (λ x. (x.latitude.value ≡ self.latitude.value) × (x.longitude.value ≡ self.longitude.value)) }
        ensures none { IfNone result (inside parallels self.latitude.value && inside meridians self.longitude.value ≡ false) }
    {
        Some(Point {
            latitude: Parallel::new(self.latitude.value)?,
            longitude: Meridian::new(self.longitude.value)?,
        })
    }
}

impl Point {
    // The point so far to the `north` and to the `east`, where there is one.
    fn moved(self, north: Offset, east: Offset) -> Option<Point>
        ensures some { IfSome result (λ x. (x.latitude.value ≡ northward self.latitude.value north.value) × (x.longitude.value ≡ eastward self.longitude.value east.value)) }
        ensures none { IfNone result (inside parallels (northward self.latitude.value north.value) ≡ false) }
    {
        Some(Point {
            latitude: self.latitude.northward(north)?,
            longitude: self.longitude.eastward(east),
        })
    }

    // What it is to a caller.
    fn place(self) -> Place
        ensures { result ≡ record { latitude = self.latitude.value; longitude = self.longitude.value } }
    {
        Place {
            latitude: self.latitude.value,
            longitude: self.longitude.value,
        }
    }
}

// Form seven: `first` and `second` are the coordinate itself, which has to be a point.
#[tactic(auto, unfolding(crate::specs::Resolution::at_kind, crate::specs::Resolution::standing))]
fn absolute(first: i64, second: i64) -> Result<Place, Reason>
    ensures { told result ≡ at_kind coordinate (pos 0) (pos 0) first second }
{
    let sent = Coordinate::new(second, first).ok_or(Reason::Outside)?;
    let point = sent.point().ok_or(Reason::NoInformation)?;
    Ok(point.place())
}

// The `reference`, which has to be a point, moved to the `north` and to the `east`.
#[tactic(auto, unfolding(crate::specs::Resolution::shifted))]
fn shifted(reference: Coordinate, north: Offset, east: Offset) -> Result<Place, Reason>
    ensures { told result ≡ Rattle.position.specs.Resolution.shifted reference.latitude.value reference.longitude.value north.value east.value }
{
    let from = reference.point().ok_or(Reason::NoInformation)?;
    let to = from.moved(north, east).ok_or(Reason::LeavesItsRange)?;
    Ok(to.place())
}

// Forms one to six: `first` and `second` are offsets of this `width` from the `reference`.
#[tactic(auto, unfolding(crate::specs::Resolution::at_kind))]
fn relative(reference: Coordinate, width: Width, first: i64, second: i64) -> Result<Place, Reason>
    ensures { told result ≡ at_kind (offset width.bits) reference.latitude.value reference.longitude.value first second }
{
    let east = Offset::new(first, width).ok_or(Reason::Outside)?;
    let north = Offset::new(second, width).ok_or(Reason::Outside)?;
    shifted(reference, north, east)
}

// The numbers `first` and `second` get their kind from the `form` before anything is added to the `reference`.
#[tactic(auto, unfolding(crate::specs::Resolution::at_kind))]
fn by_form(reference: Coordinate, form: i64, first: i64, second: i64) -> Result<Place, Reason>
    requires { inside forms form ≡ true }
    ensures { told result ≡ at_kind (kind_of form) reference.latitude.value reference.longitude.value first second }
{
    let which = form as usize;
    if which == ABSOLUTE_FORM {
        return absolute(first, second);
    }
    relative(reference, Width::new(which), first, second)
}

// The place that a `form` means, seen from the reference `latitude` and `longitude`. `first` is the longitude's number and `second` the
// latitude's, in the order in which the forms have them.
#[tactic(auto, unfolding(crate::specs::Resolution::resolution))]
pub fn resolve(
    latitude: i64,
    longitude: i64,
    form: i64,
    first: i64,
    second: i64,
) -> Result<Place, Reason>
    ensures { told result ≡ resolution latitude longitude form first second }
{
    if !within(form, FIRST_FORM, LAST_FORM) {
        return Err(Reason::Outside);
    }
    let reference = Coordinate::new(latitude, longitude).ok_or(Reason::Outside)?;
    by_form(reference, form, first, second)
}
