//! The priority of a message: its facility and its severity.

ghost use Rattle.std.specs.Prelude.{◌≡◌, ℕ, List, ◌+◌, ◌*◌, ◌/◌, ◌%◌, ◌<◌, ◌∷◌, [], Some, IfSome, decimal};
ghost use Rattle.syslog_lines.specs.Priorities.{BeginsWith, facility_of, keyword_of, number_of, severity_of};
ghost use Rattle.syslog_lines.specs.declared.priority.Severity.{Severity};

/// How urgent a message is, the most urgent first.
#[derive(Clone, Copy, Debug, PartialEq, Eq, PartialOrd, Ord)]
pub enum Severity {
    Emergency,
    Alert,
    Critical,
    Error,
    Warning,
    Notice,
    Informational,
    Debug,
}

impl Severity {
    /// The keyword, as `syslog.conf` has it.
    pub fn keyword(self) -> &'static str
        ensures { result.now ≡ keyword_of self }
    {
        match self {
            Severity::Emergency => "emerg",
            Severity::Alert => "alert",
            Severity::Critical => "crit",
            Severity::Error => "err",
            Severity::Warning => "warning",
            Severity::Notice => "notice",
            Severity::Informational => "info",
            Severity::Debug => "debug",
        }
    }

    /// The severity of this keyword.
    pub fn from_keyword(word: &str) -> Option<Severity>
        ensures known { (s : Severity) → word.now ≡ keyword_of s → result ≡ Some s }
        ensures spelled { IfSome result (λ s. word.now ≡ keyword_of s) }
    {
        match word {
            "emerg" => Some(Severity::Emergency),
            "alert" => Some(Severity::Alert),
            "crit" => Some(Severity::Critical),
            "err" => Some(Severity::Error),
            "warning" => Some(Severity::Warning),
            "notice" => Some(Severity::Notice),
            "info" => Some(Severity::Informational),
            "debug" => Some(Severity::Debug),
            _ => None,
        }
    }
}

/// A priority: 8 times the facility, and the severity. Those of messages are below 192.
#[derive(Clone, Copy, Debug, PartialEq, Eq)]
pub struct Priority(pub u8);

// How many priorities there are: 24 facilities of 8 severities.
const PRIORITIES: u8 = 192;

impl Priority {
    /// Reads a priority in angle brackets from the front of a line, and says what follows it. Its number is
    /// decimal, without zeros ahead.
    pub fn read(line: &[u8]) -> Option<(Priority, &[u8])>
        ensures { IfSome result (λ r. BeginsWith line.now r.0.0 r.1.now) }
    {
        let (number, rest) = match line {
            [b'<', a, b'>', rest @ ..] => (number_of_one(*a)?, rest),
            [b'<', a, b, b'>', rest @ ..] => (number_of_two(*a, *b)?, rest),
            [b'<', a, b, c, b'>', rest @ ..] => (number_of_three(*a, *b, *c)?, rest),
            _ => return None,
        };
        let number = u8::try_from(number).ok()?;
        if number < PRIORITIES {
            Some((Priority(number), rest))
        } else {
            None
        }
    }

    /// The number.
    pub fn number(self) -> u8
        ensures { result ≡ self.0 }
    {
        self.0
    }

    /// The severity.
    #[tactic(auto, unfolding(crate::specs::Priorities::severity_of))]
    pub fn severity(self) -> Severity
        ensures number { number_of result ≡ self.0 % 8 }
        ensures keyword { keyword_of result ≡ severity_of self.0 }
    {
        match self.0 % 8 {
            0 => Severity::Emergency,
            1 => Severity::Alert,
            2 => Severity::Critical,
            3 => Severity::Error,
            4 => Severity::Warning,
            5 => Severity::Notice,
            6 => Severity::Informational,
            _ => Severity::Debug,
        }
    }

    /// The facility's keyword, as RFC 5424 numbers them.
    #[tactic(auto, unfolding(crate::specs::Priorities::facility_of))]
    pub fn facility(self) -> &'static str
        ensures { result.now ≡ facility_of (self.0 / 8) }
    {
        match self.0 / 8 {
            0 => "kern",
            1 => "user",
            2 => "mail",
            3 => "daemon",
            4 => "auth",
            5 => "syslog",
            6 => "lpr",
            7 => "news",
            8 => "uucp",
            9 => "cron",
            10 => "authpriv",
            11 => "ftp",
            12 => "ntp",
            13 => "audit",
            14 => "alert",
            15 => "clock",
            16 => "local0",
            17 => "local1",
            18 => "local2",
            19 => "local3",
            20 => "local4",
            21 => "local5",
            22 => "local6",
            _ => "local7",
        }
    }
}

// The number of one digit.
#[tactic(auto, using(crate::proofs::Numbers::decimal_one))]
fn number_of_one(a: u8) -> Option<u16>
    ensures few { IfSome result (λ n. n < 10) }
    ensures text { IfSome result (λ n. decimal n ≡ a ∷ []) }
{
    match a {
        b'0'..=b'9' => Some(u16::from(a - b'0')),
        _ => None,
    }
}

// The number of two digits, of which the first is no zero.
fn number_of_two(a: u8, b: u8) -> Option<u16>
    ensures many { IfSome result (λ n. 0 < n) }
    ensures few { IfSome result (λ n. n < 100) }
    ensures text { IfSome result (λ n. decimal n ≡ a ∷ b ∷ []) }
{
    let tens = number_of_one(a)?;
    let ones = number_of_one(b)?;
    if tens == 0 {
        None
    } else {
        Some(10 * tens + ones)
    }
}

// The number of three digits, of which the first is no zero.
fn number_of_three(a: u8, b: u8, c: u8) -> Option<u16>
    ensures { IfSome result (λ n. decimal n ≡ a ∷ b ∷ c ∷ []) }
{
    let tens = number_of_two(a, b)?;
    let ones = number_of_one(c)?;
    Some(10 * tens + ones)
}
