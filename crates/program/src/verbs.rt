//! The verbs: what each takes, and what is said of it.

ghost use Rattle.std.specs.Prelude.{◌≡◌};
ghost use Rattle.program.specs.Options.{takes_no_value};

/// A word that stands behind a verb.
#[derive(Clone, Copy)]
pub enum Place {
    Wad,
    Map,
    Out,
    Cert,
    Ray,
    First,
    Second,
    Rooms,
}

impl Place {
    /// Its name in a synopsis.
    pub fn name(self) -> &'static str {
        match self {
            Place::Wad => "WAD",
            Place::Map => "MAP",
            Place::Out => "OUT",
            Place::Cert => "CERT",
            Place::Ray => "RAY",
            Place::First => "A",
            Place::Second => "B",
            Place::Rooms => "N",
        }
    }
}

/// An option; the last six take no value.
#[derive(Clone, Copy, PartialEq, Eq)]
pub enum Choice {
    Only,
    Refused,
    Cert,
    Report,
    Budget,
    Workers,
    Hexen,
    Large,
    Faults,
    Heat,
    Exact,
    Json,
}

impl Choice {
    /// Whether no value stands behind it.
    pub fn is_flag(self) -> bool
        ensures { result ≡ takes_no_value self }
    {
        matches!(
            self,
            Choice::Hexen
                | Choice::Large
                | Choice::Faults
                | Choice::Heat
                | Choice::Exact
                | Choice::Json
        )
    }
}

/// How an option is written, and what it means.
pub struct Entry {
    pub choice: Choice,
    /// Its name, behind two hyphens.
    pub name: &'static str,
    /// Its value, as a synopsis has it; empty where it takes none.
    pub value: &'static str,
    /// What it does, and what is done without it.
    pub about: &'static str,
}

impl Entry {
    /// What stands between its name and its value.
    pub fn gap(&self) -> &'static str {
        if self.choice.is_flag() { "" } else { " " }
    }
}

/// All options, in the order of the synopses.
pub static OPTIONS: [Entry; 12] = [
    Entry {
        choice: Choice::Only,
        name: "only",
        value: "MAP,MAP",
        about: "takes these maps; else all of the WAD",
    },
    Entry {
        choice: Choice::Refused,
        name: "refused",
        value: "HOW",
        about: "keep, clear or stop where a map is refused; else keep",
    },
    Entry {
        choice: Choice::Cert,
        name: "cert",
        value: "FILE",
        about: "writes the certificate to FILE; else to none",
    },
    Entry {
        choice: Choice::Report,
        name: "report",
        value: "FILE",
        about: "writes what came of each map, pair or fault to FILE",
    },
    Entry {
        choice: Choice::Json,
        name: "json",
        value: "",
        about: "writes each line of the report, or of check, as JSON",
    },
    Entry {
        choice: Choice::Exact,
        name: "exact",
        value: "",
        about: "decides every pair, in place of a budget",
    },
    Entry {
        choice: Choice::Budget,
        name: "budget",
        value: "N|full|enough",
        about: "sequences from a sector; else 16384 (why, draw: full)",
    },
    Entry {
        choice: Choice::Workers,
        name: "workers",
        value: "N",
        about: "threads, 1 to 64; else 4",
    },
    Entry {
        choice: Choice::Large,
        name: "large",
        value: "",
        about: "maps of up to 16383 points, 32768 lines, 16384 sectors",
    },
    Entry {
        choice: Choice::Hexen,
        name: "hexen",
        value: "",
        about: "makes the map in Hexen's format; else in Doom's",
    },
    Entry {
        choice: Choice::Faults,
        name: "faults",
        value: "",
        about: "draws what audit refuses, in place of A and B",
    },
    Entry {
        choice: Choice::Heat,
        name: "heat",
        value: "",
        about: "draws how much each sector sees, in place of A and B",
    },
];

/// The option of that name.
pub fn option_named(name: &str) -> Option<&'static Entry> {
    OPTIONS.iter().find(|entry| entry.name == name)
}

/// The option that is this choice.
pub fn entry_of(choice: Choice) -> Option<&'static Entry> {
    OPTIONS.iter().find(|entry| entry.choice == choice)
}

/// A verb.
pub struct Verb {
    pub name: &'static str,
    /// What stands behind it, in order.
    pub places: &'static [Place],
    /// How many of these, the last ones, may be left out.
    pub spare: &'static [usize],
    /// The options that it takes.
    pub choices: &'static [Choice],
    /// What it is for, in half a line.
    pub purpose: &'static str,
    /// What it does, in lines.
    pub about: &'static str,
}

impl Verb {
    /// Whether it takes this option.
    pub fn takes(&self, choice: Choice) -> bool {
        self.choices.contains(&choice)
    }
}

/// All verbs.
pub static VERBS: [Verb; 14] = [
    Verb {
        name: "all",
        places: &[Place::Wad, Place::Out],
        spare: &[],
        choices: &[
            Choice::Only,
            Choice::Refused,
            Choice::Report,
            Choice::Json,
            Choice::Exact,
            Choice::Budget,
            Choice::Workers,
            Choice::Large,
        ],
        purpose: "builds every map of a WAD, and judges each table",
        about: "Builds every map of the WAD, or those that are named, judges each table by its\nown certificate, and writes the WAD with these tables to OUT. A map that is\nrefused keeps its REJECT (keep), or gets an all-clear one where its sectors can\nbe counted (clear), or nothing is written (stop).",
    },
    Verb {
        name: "build",
        places: &[Place::Wad, Place::Map, Place::Out],
        spare: &[],
        choices: &[
            Choice::Cert,
            Choice::Report,
            Choice::Exact,
            Choice::Budget,
            Choice::Workers,
            Choice::Large,
        ],
        purpose: "writes a WAD with the table of one map, and a certificate",
        about: "Writes the WAD with the map's REJECT to OUT, and a certificate and a report of\nthe pairs of sectors where they are asked for.",
    },
    Verb {
        name: "check",
        places: &[Place::Wad, Place::Map, Place::Cert],
        spare: &[],
        choices: &[Choice::Json, Choice::Large],
        purpose: "judges the table of a map by a certificate",
        about: "Judges the map's REJECT by a certificate; a yes means that no rejected pair can\nsee.",
    },
    Verb {
        name: "verify",
        places: &[Place::Wad],
        spare: &[],
        choices: &[
            Choice::Only,
            Choice::Report,
            Choice::Json,
            Choice::Workers,
            Choice::Large,
        ],
        purpose: "says how the tables of a WAD differ from the right ones",
        about: "Decides every pair of sectors of each map of the WAD, or of those that are\nnamed, and says how many bits of its own REJECT are wrong, so that monsters are\nblind, and how many are missing. Writes nothing but the report.",
    },
    Verb {
        name: "maps",
        places: &[Place::Wad],
        spare: &[],
        choices: &[Choice::Only, Choice::Report, Choice::Json, Choice::Large],
        purpose: "lists the maps of a WAD, and what their tables hold",
        about: "Lists the maps of the WAD, or those that are named: of each its format, the unit of\na text with decimals, how many lines, points and sectors it has, how many bytes its\nREJECT has of those that it has to have, and how many bits of it are set. Writes\nnothing but the report.",
    },
    Verb {
        name: "audit",
        places: &[Place::Wad, Place::Map],
        spare: &[],
        choices: &[Choice::Report, Choice::Json, Choice::Large],
        purpose: "says whether a map is sound, so that it can be built",
        about: "Says whether the map is sound: lines meet at ends alone, and each face is\nclosed. The report names every fault at its place.",
    },
    Verb {
        name: "need",
        places: &[Place::Wad, Place::Map],
        spare: &[],
        choices: &[Choice::Large],
        purpose: "says how great a budget is enough for a map",
        about: "Says how many sequences of portals the sector that needs most has, and a number\nthat is enough for any map of this size.",
    },
    Verb {
        name: "why",
        places: &[Place::Wad, Place::Map, Place::First, Place::Second],
        spare: &[],
        choices: &[Choice::Exact, Choice::Budget, Choice::Large],
        purpose: "says whether two sectors see each other, and by which ray",
        about: "Says whether the sectors A and B see each other, and by which ray, by walks of\nthese two alone.",
    },
    Verb {
        name: "draw",
        places: &[
            Place::Wad,
            Place::Map,
            Place::Out,
            Place::First,
            Place::Second,
        ],
        spare: &[1, 2],
        choices: &[
            Choice::Exact,
            Choice::Budget,
            Choice::Large,
            Choice::Faults,
            Choice::Heat,
        ],
        purpose: "draws a map, the row of a sector, or a pair of sectors",
        about: "Writes a picture (SVG) of the map to OUT: its plan, the row of sector A in its\nREJECT, how much each sector sees by it, whether A and B see each other, or what\nthe audit refuses.",
    },
    Verb {
        name: "sound",
        places: &[Place::Wad, Place::Map, Place::First, Place::Second],
        spare: &[2],
        choices: &[Choice::Large],
        purpose: "names the way of a noise from a sector to another",
        about: "Names the sides of the lines by which a noise gets from sector A to sector B;\nwithout them says how many pairs of sectors hear each other.",
    },
    Verb {
        name: "ray",
        places: &[Place::Wad, Place::Map, Place::Ray],
        spare: &[],
        choices: &[Choice::Large],
        purpose: "says whether a ray is a line of sight",
        about: "Says whether a ray is a line of sight, and between which sectors, or what is\nwrong with it. A ray is one word, as 2R,5L,0,1,-32: the sides where it starts\nand ends, and the line a*x + b*y + c = 0 as a,b,c.",
    },
    Verb {
        name: "trace",
        places: &[Place::Wad, Place::Map, Place::Ray],
        spare: &[],
        choices: &[Choice::Large],
        purpose: "names the sectors that a ray passes, or what it hits",
        about: "Names the sectors that a ray passes, or what it hits first. A ray is one word,\nas 2R,5L,0,1,-32: the sides where it starts and ends, and the line\na*x + b*y + c = 0 as a,b,c.",
    },
    Verb {
        name: "zero",
        places: &[Place::Wad, Place::Map, Place::Out],
        spare: &[],
        choices: &[Choice::Large],
        purpose: "writes a WAD with an all-clear table for a map",
        about: "Writes the WAD with an all-clear REJECT for the map to OUT, without an audit.",
    },
    Verb {
        name: "grid",
        places: &[Place::Rooms],
        spare: &[],
        choices: &[
            Choice::Exact,
            Choice::Budget,
            Choice::Workers,
            Choice::Hexen,
        ],
        purpose: "makes a map of N by N rooms, and builds and checks it",
        about: "Makes a map of N by N rooms, and builds and checks it in memory.",
    },
];

/// The verb of that name.
pub fn verb_named(name: &str) -> Option<&'static Verb> {
    VERBS.iter().find(|verb| verb.name == name)
}
