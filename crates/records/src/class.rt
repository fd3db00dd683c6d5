// Classes of answers: least, bottomless, none.
ghost use Rattle.std.specs.Prelude.{◌≡◌};
ghost use Rattle.records.specs.Classes.{class_number, ClassOf};

// The class of an answer, by its number in records.
#[derive(Clone, Copy, Debug, PartialEq, Eq)]
pub enum Class {
    Optimal = 1,
    Unbounded = 2,
    Infeasible = 3,
}

impl Class {
    // Its number.
    pub fn number(self) -> u64
        ensures { result ≡ class_number self }
    {
        self as u64
    }
}

// A number that is no class.
#[derive(Clone, Copy, Debug, PartialEq, Eq)]
pub struct NoClass(pub u64);

impl TryFrom<u64> for Class {
    type Error = NoClass;

    ghost try_from_gives = { ClassOf };

    fn try_from(number: u64) -> Result<Class, NoClass> {
        match number {
            1 => Ok(Class::Optimal),
            2 => Ok(Class::Unbounded),
            3 => Ok(Class::Infeasible),
            _ => Err(NoClass(number)),
        }
    }
}
