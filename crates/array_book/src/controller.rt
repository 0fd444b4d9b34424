// The two controllers, each with a map of its own.
ghost use Rattle.std.specs.Prelude.{◌≡◌};
ghost use Rattle.array_book.specs.Takes.{controller_of};

/// One of the two controllers: 0, of the workers of even numbers, or 1.
#[derive(Clone, Copy, Debug, PartialEq, Eq)]
pub enum Controller {
    Even,
    Odd,
}

impl Controller {
    /// The controller into whose words the worker takes its records.
    pub fn of(worker: u8) -> Controller
        ensures { result ≡ controller_of worker }
    {
        if worker % 2 == 0 {
            Controller::Even
        } else {
            Controller::Odd
        }
    }
}
