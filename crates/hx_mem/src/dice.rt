ghost use Rattle.std.specs.Prelude.{◌<◌, ◌≡◌, length, take};

/// Small numbers that follow from one, its digits over and over. Of 0 all are 0.
#[derive(Drop)]
pub struct Dice {
    choice: u64,
    left: u64,
}

impl Dice {
    pub fn new(choice: u64) -> Dice {
        Dice {
            choice,
            left: choice,
        }
    }

    /// A number below a bound.
    pub fn draw(&mut self, bound: u64) -> u64
        requires { 0 < bound }
        ensures { result < bound }
    {
        if self.left == 0 {
            self.left = self.choice;
        }
        let digit = self.left % bound;
        self.left /= bound;
        digit
    }

    /// A choice of two, the first where the number is 0.
    pub fn is_first(&mut self) -> bool {
        self.draw(2) == 0
    }

    /// Another byte, or the same.
    pub fn byte(&mut self, byte: u8) -> u8 {
        byte.wrapping_add(self.draw(256) as u8)
    }
}
