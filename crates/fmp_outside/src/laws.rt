//! Laws of bodies that run outside, each the contract of a function that does nothing. `C` is the type of the contexts
//! of the bodies' text, `D` that of the contexts that are kept of bodies outside.
ghost use Rattle.std.specs.Prelude.{◌≡◌, ◌↔◌, ℕ, Bool, List, IfSome};
ghost use Rattle.fmp_base.specs.declared.events.Line.{Line};
ghost use Rattle.fmp_schedules.specs.Schedules.{Holds, Rules};
ghost use Rattle.fmp_base.specs.Meanings.{Meaning};
ghost use Rattle.fmp_base.specs.Setups.{setup};
ghost use Rattle.fmp_base.specs.Systems.{SystemTables};
ghost use Rattle.fmp_outside.specs.declared.given.Given.{Given};
ghost use Rattle.fmp_outside.specs.declared.given.Act.{Act};
ghost use Rattle.fmp_outside.specs.declared.given.Given.TheVariants as given;
ghost use Rattle.fmp_base.specs.Meanings.{World};
ghost use Rattle.fmp_base.specs.Steps.{step};
ghost use Rattle.fmp_worlds.specs.Stamps.{actor_at_number};
ghost use Rattle.fmp_outside.specs.Outside.{AreOfText, History, IsOfText, history_meaning};
ghost use Rattle.fmp_base.specs.declared.events.Event.{Event};
ghost use Rattle.fmp_outside.specs.Keeping.{Follows, HoldsAlong, SameAlong};
ghost use Rattle.fmp_outside.specs.OutsideLaws.{HoldsOutside, SameAsText};

/// Where each call, end and fault that is handed in is the one that the text of its body makes next, the kernel has the
/// lines and the state of the run of that text.
pub fn bodies_outside_do_as_their_text<C, D>()
    ensures { (sys : SystemTables) (F : Meaning D) (m : ℕ) (d : D) (M : Meaning C) (n : ℕ) (gs : List Given) →
        AreOfText sys M n (setup sys M).world gs → SameAsText sys F m d M n gs }
{}

/// What holds of a text along every schedule, as a search shows it, holds of bodies outside that do as the text.
pub fn schedules_hold_outside<C, D>()
    ensures { (rules : Rules) (sys : SystemTables) (F : Meaning D) (m : ℕ) (d : D) (M : Meaning C) (n : ℕ)
        (forbidden : Line → Bool) (rest : List Bool) → Holds rules sys M n forbidden rest →
        HoldsOutside rules sys F m d M n forbidden rest }
{}

/// As `bodies_outside_do_as_their_text`, where the text needs several turns for a stretch, in which it keeps its
/// places.
pub fn bodies_outside_may_take_long<C, D>()
    ensures { (sys : SystemTables) (F : Meaning D) (m : ℕ) (d : D) (M : Meaning C) (n : ℕ) (gs : List Given)
        (es : List Event) → Follows sys M n (setup sys M).world gs es → SameAlong sys F m d M n gs es }
{}

/// As `bodies_outside_may_take_long`, of what holds of a text along every schedule.
pub fn schedules_hold_along<C, D>()
    ensures { (rules : Rules) (sys : SystemTables) (F : Meaning D) (m : ℕ) (d : D) (M : Meaning C) (n : ℕ)
        (forbidden : Line → Bool) (rest : List Bool) → Holds rules sys M n forbidden rest →
        HoldsAlong rules sys F m d M n forbidden rest }
{}

/// Bodies outside that read only their extended information and the replies since their start have a text: it makes the
/// act that the body makes after the same history, and none of its stretches is ever over the bound.
pub fn histories_are_texts()
    ensures acts { (f : ℕ → History → Act) (sys : SystemTables) (n : ℕ) (w : World History) (p : ℕ) (a : Act) →
        IsOfText sys (history_meaning f) n w (given.Act p a)
        ↔ IfSome (actor_at_number sys w p) (λ g. f g.entry g.context ≡ a) }
    ensures bound { (f : ℕ → History → Act) (sys : SystemTables) (m n : ℕ) (w : World History) (e : Event) →
        step sys (history_meaning f) m w e ≡ step sys (history_meaning f) n w e }
{}
