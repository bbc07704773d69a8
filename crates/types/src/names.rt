// Rows of the type table by the names of their types, for code that speaks of a type.
// The promise of `held` says that each is the row of that name in specs/Rows.antt, so that a number that is wrong here is refused.
ghost use Rattle.std.specs.Prelude.{◌≡◌, [], ◌∷◌};
ghost use Rattle.types.specs.Names.{rows_named};

pub const LIGHT_STATE: usize = 44;

pub const LONGITUDE: usize = 45;

pub const MINUTE_OF_THE_YEAR: usize = 46;

pub const MSG_COUNT: usize = 47;

pub const OFFSET_LL_B12: usize = 49;

pub const DESCRIPTION: usize = 129;

pub const POSITION_3D: usize = 137;

pub const POSITION_OFFSET_LLV: usize = 236;

pub const RTE_DATA: usize = 342;

pub const RTE_LIST: usize = 343;

pub const RTS_DATA: usize = 353;

pub const RTS_LIST: usize = 354;

pub const BASIC_SAFETY_MESSAGE: usize = 383;

pub const MAP_DATA: usize = 387;

pub const ROAD_SIDE_INFORMATION_ID: usize = 388;

pub const ROAD_SIDE_INFORMATION: usize = 395;

pub const ROADSIDE_SAFETY_MESSAGE: usize = 401;

pub const SPAT: usize = 407;

pub const MESSAGE_FRAME: usize = 413;

// Every constant of this file, in the order in which they stand.
fn held() -> [usize; 19]
    ensures { result
        ≡ rows_named
        ("LightState"
        ∷ "Longitude"
        ∷ "MinuteOfTheYear"
        ∷ "MsgCount"
        ∷ "OffsetLL-B12"
        ∷ "Description"
        ∷ "Position3D"
        ∷ "PositionOffsetLLV"
        ∷ "RTEData"
        ∷ "RTEList"
        ∷ "RTSData"
        ∷ "RTSList"
        ∷ "BasicSafetyMessage"
        ∷ "MapData"
        ∷ "type of RoadSideInformation.id"
        ∷ "RoadSideInformation"
        ∷ "RoadsideSafetyMessage"
        ∷ "SPAT"
        ∷ "MessageFrame"
        ∷ []) }
{
    [
        LIGHT_STATE,
        LONGITUDE,
        MINUTE_OF_THE_YEAR,
        MSG_COUNT,
        OFFSET_LL_B12,
        DESCRIPTION,
        POSITION_3D,
        POSITION_OFFSET_LLV,
        RTE_DATA,
        RTE_LIST,
        RTS_DATA,
        RTS_LIST,
        BASIC_SAFETY_MESSAGE,
        MAP_DATA,
        ROAD_SIDE_INFORMATION_ID,
        ROAD_SIDE_INFORMATION,
        ROADSIDE_SAFETY_MESSAGE,
        SPAT,
        MESSAGE_FRAME,
    ]
}
