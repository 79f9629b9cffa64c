ghost use Rattle.std.specs.Prelude.{◌≡◌};
ghost use Rattle.script_text.specs.Forms.{written, forms, kind_of, beat_with};

use rendezvous_steps::Beat;

/// Where a line of a script stands.
#[derive(Clone, Copy, Debug, PartialEq, Eq)]
pub enum Place {
    /// No line stands before it.
    Front,
    /// After the title: `pool` and `patience` may come.
    Top,
    /// After `pool`: `patience` may come.
    AfterPool,
    /// Only commands may come.
    Commands,
    /// Within a load that has no `end` yet.
    InLoad,
}

/// The forms of a script's lines.
#[derive(Clone, Copy, Debug, PartialEq, Eq)]
pub enum Form {
    Title,
    Pool,
    Patience,
    Boot,
    Online,
    Offline,
    Suspend,
    Resume,
    Refuse,
    Accept,
    Load,
    LoadForce,
    End,
    Beats,
}

/// What a beat of a schedule is.
#[derive(Clone, Copy, Debug, PartialEq, Eq)]
pub enum BeatKind {
    /// `s`: a step of a thread.
    Step,
    /// `t`: a step of a thread whose patience is at an end.
    Timeout,
    /// `n`: an NMI from elsewhere at a thread.
    Nmi,
    /// `r`: an attempt of a thread to run ordinary code.
    Run,
    /// `*`: rounds.
    Rounds,
}

/// How many threads and cores the machine has that a script is for.
#[derive(Clone, Copy, Debug, PartialEq, Eq)]
pub struct Limits {
    pub threads: u16,
    pub cores: u16,
}

impl Form {
    /// The form, written as a line: `NAME..` stands for one to sixteen names, `[NAME..]` for none to sixteen, `BEAT..`
    /// for the beats of a schedule, and another word with a capital letter for a number.
    pub fn written(self) -> &'static [u8]
        ensures { result.now ≡ written self }
    {
        match self {
            Form::Title => b"ucode-script 1",
            Form::Pool => b"pool BLOCKS",
            Form::Patience => b"patience POLLS",
            Form::Boot => b"boot [NAME..]",
            Form::Online => b"online THREAD",
            Form::Offline => b"offline THREAD",
            Form::Suspend => b"suspend",
            Form::Resume => b"resume",
            Form::Refuse => b"refuse CORE",
            Form::Accept => b"accept CORE",
            Form::Load => b"load NAME..",
            Form::LoadForce => b"load-force NAME..",
            Form::End => b"end",
            Form::Beats => b"BEAT..",
        }
    }
}

impl Place {
    /// The forms of the lines that may stand here.
    pub fn forms(self) -> &'static [Form]
        ensures { result.now ≡ forms self }
    {
        match self {
            Place::Front => &[Form::Title],
            Place::Top => &[
                Form::Pool,
                Form::Patience,
                Form::Boot,
                Form::Online,
                Form::Offline,
                Form::Suspend,
                Form::Resume,
                Form::Refuse,
                Form::Accept,
                Form::Load,
                Form::LoadForce,
            ],
            Place::AfterPool => &[
                Form::Patience,
                Form::Boot,
                Form::Online,
                Form::Offline,
                Form::Suspend,
                Form::Resume,
                Form::Refuse,
                Form::Accept,
                Form::Load,
                Form::LoadForce,
            ],
            Place::Commands => &[
                Form::Boot,
                Form::Online,
                Form::Offline,
                Form::Suspend,
                Form::Resume,
                Form::Refuse,
                Form::Accept,
                Form::Load,
                Form::LoadForce,
            ],
            Place::InLoad => &[Form::End, Form::Beats],
        }
    }
}

impl BeatKind {
    /// What the first byte of a word says that its beat is.
    pub fn of(first: u8) -> Option<BeatKind>
        ensures { result ≡ kind_of first }
    {
        match first {
            b's' => Some(BeatKind::Step),
            b't' => Some(BeatKind::Timeout),
            b'n' => Some(BeatKind::Nmi),
            b'r' => Some(BeatKind::Run),
            b'*' => Some(BeatKind::Rounds),
            _ => None,
        }
    }

    /// The beat of this kind with a number: that of a thread, or of rounds.
    pub fn with(self, number: u16) -> Beat
        ensures { result ≡ beat_with self number }
    {
        match self {
            BeatKind::Step => Beat::Step(number),
            BeatKind::Timeout => Beat::Timeout(number),
            BeatKind::Nmi => Beat::Nmi(number),
            BeatKind::Run => Beat::Run(number),
            BeatKind::Rounds => Beat::Rounds(number),
        }
    }
}
