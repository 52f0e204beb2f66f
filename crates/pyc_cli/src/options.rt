//! The options of a command that runs an image: how far the run may go.
ghost use Rattle.std.specs.Prelude.{◌≡◌, ◌≤◌, ◌<◌, ◌%◌, map, string_bytes, option_map, unwrap_or, IfSome, if◌then◌else◌};
ghost use Rattle.std.specs.Str.{all_ascii_digits};
ghost use Rattle.rv_machine.specs.Limits.{AreSizes};
ghost use Rattle.pyc_cli.specs.Order.{is_decimal as is_decimal_word, value_of, number_of, nothing_given, with_option, with_options, given_by};

/// The most digits of a number.
const MOST_DIGITS: usize = 19;

/// The numbers that an option takes: from the least to the most, each a multiple of the unit.
struct Span {
    least: u64,
    most: u64,
    unit: u64,
}

/// The numbers of instructions that a run may take.
const STEPS: Span = Span {
    least: 1,
    most: 1_000_000_000_000_000_000,
    unit: 1,
};

/// The sizes that a heap may have, in bytes.
const HEAP: Span = Span {
    least: 16,
    most: 268_435_456,
    unit: 16,
};

/// The sizes that each stack may have, in bytes.
const STACK: Span = Span {
    least: 1_024,
    most: 268_435_456,
    unit: 16,
};

/// Whether each of the bytes is a digit.
fn are_digits(bytes: &[u8]) -> bool
    ensures { result ≡ all_ascii_digits bytes.now }
{
    bytes.iter().all(|byte| byte.is_ascii_digit())
}

/// A number is 1 to 19 digits, of which the first isn't 0.
fn is_decimal(word: &str) -> bool
    ensures { result ≡ is_decimal_word word.now }
{
    let digits = word.as_bytes();
    !digits.is_empty()
        && digits.len() <= MOST_DIGITS
        && are_digits(digits)
        && !digits.starts_with(b"0")
}

/// The number that a word writes in decimal.
fn decimal(word: &str) -> Option<u64>
    ensures { result ≡ (if is_decimal_word word.now then Some (value_of word.now) else None) }
{
    if is_decimal(word) {
        word.parse().ok()
    } else {
        None
    }
}

/// The number that a word writes, where the span has it.
fn number(span: &Span, word: &str) -> Option<u64>
    requires { 0 < span.now.unit }
    ensures value { result ≡ number_of span.now word.now }
    ensures within { IfSome result (λ n. (span.now.least ≤ n) × (n ≤ span.now.most) × (n % span.now.unit ≡ 0)) }
{
    let number = decimal(word)?;
    if span.least <= number && number <= span.most && number % span.unit == 0 {
        Some(number)
    } else {
        None
    }
}

/// What the options of a run give.
#[derive(Debug, Drop)]
pub struct Options {
    steps: Option<u64>,
    heap: Option<u64>,
    stack: Option<u64>,
    ghost sizes: { AreSizes (unwrap_or heap 67108864) (unwrap_or stack 67108864) },
}

impl Options {
    ghost use Rattle.pyc_cli.specs.Asked.{given};

    /// The instructions of a run, where no option says otherwise.
    const DEFAULT_STEPS: u64 = 1_000_000_000;

    /// The bytes of the heap, and of each stack, where no option says otherwise.
    const DEFAULT_SIZE: u64 = 67_108_864;

    /// What no options give.
    fn none() -> Options
        ensures { given result ≡ nothing_given }
    {
        Options {
            steps: None,
            heap: None,
            stack: None,
        }
    }

    /// What one option more gives; none where it is unknown, given already, or its number isn't one that it takes.
    #[tactic(auto, unfolding(crate::specs::Order::steps_span, crate::specs::Order::heap_span, crate::specs::Order::stack_span))]
    fn with(self, name: &str, word: &str) -> Option<Options>
        ensures { option_map given result ≡ with_option name.now word.now (given self) }
    {
        let Options { steps, heap, stack } = self;
        match name {
            "--steps" if steps.is_none() => Some(Options {
                steps: Some(number(&STEPS, word)?),
                heap,
                stack,
            }),
            "--heap" if heap.is_none() => Some(Options {
                steps,
                heap: Some(number(&HEAP, word)?),
                stack,
            }),
            "--stack" if stack.is_none() => Some(Options {
                steps,
                heap,
                stack: Some(number(&STACK, word)?),
            }),
            _ => None,
        }
    }

    /// What options give, each a name and a number, in any order and each at most once.
    fn from_words(words: &[String]) -> Option<Options>
        ensures { option_map given result ≡ with_options (map string_bytes words.now) nothing_given }
    {
        let mut options = Options::none();
        let mut rest = words;
        while let [name, number, more @ ..] = rest {
            options = options.with(name.as_str(), number.as_str())?;
            rest = more;
        }
        if rest.is_empty() { Some(options) } else { None }
    }

    /// What the words after the operands give, of a command that takes the options of a run or takes none.
    pub fn parse(runs: bool, words: &[String]) -> Option<Options>
        ensures { option_map given result ≡ given_by runs (map string_bytes words.now) }
    {
        if runs {
            return Options::from_words(words);
        }
        if words.is_empty() {
            Some(Options::none())
        } else {
            None
        }
    }

    /// The instructions that a run may take.
    pub fn steps(&self) -> u64
        ensures { result ≡ unwrap_or (given self.now).steps 1000000000 }
    {
        self.steps.unwrap_or(Self::DEFAULT_STEPS)
    }

    /// The bytes of a run's heap.
    pub fn heap(&self) -> u64
        ensures { result ≡ unwrap_or (given self.now).heap 67108864 }
    {
        self.heap.unwrap_or(Self::DEFAULT_SIZE)
    }

    /// The bytes of each of a run's two stacks.
    pub fn stack(&self) -> u64
        ensures { result ≡ unwrap_or (given self.now).stack 67108864 }
    {
        self.stack.unwrap_or(Self::DEFAULT_SIZE)
    }
}
