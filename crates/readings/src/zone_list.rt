// A list of zone words, of which the first 64 count.
ghost use Rattle.readings.specs.Few.{front_few};
ghost use Rattle.readings.specs.Lists.{front};

use crate::front::counted;
use crate::source::Source;
use kinds::Zones;

#[derive(Clone, Copy)]
pub struct ZoneList<'a> {
    pub words: &'a [Zones],
}

impl<'a> Source for ZoneList<'a> {
    type Kind = Zones;

    ghost readings = { λ s. front s.words.now };

    ghost few = { λ s. front_few s.words.now };

    fn len(&self) -> usize {
        counted(self.words).len()
    }

    fn value(&self, n: usize) -> Option<Zones> {
        counted(self.words).get(n).copied()
    }
}
