ghost use Rattle.gen_compile.specs.Laws.{CodeIsSound};

/// The code of every program is sound, typed or not.
pub fn code_is_sound()
    ensures { CodeIsSound }
{}
