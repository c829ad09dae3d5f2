//! The laws of the board, as the contracts of functions that do nothing.
//!
//! The rule of the table has the state of the machine that the words show, and the steps that led to it. Each atomic
//! step of a hand keeps the rule, and the law says what becomes of that state.
ghost use Rattle.std.specs.Prelude.{◌≡◌, ℕ};
ghost use Rattle.morph_base.specs.declared.plan.Plan.{Plan};
ghost use Rattle.op_words.specs.declared.closed.Closed.{Closed};
ghost use Rattle.op_words.specs.declared.trail.View.{View};
ghost use Rattle.op_words.specs.Closing.{IsClosed};
ghost use Rattle.op_words.specs.Kinds.{Moment, Loads, Makes, Claims, Records, Finishes, GivesBack, Spreads};
ghost use Rattle.op_words.specs.Kinds.{RollsBack, DecidesEvent, Settles, LoadsRecord, LoadsDecision};
ghost use Rattle.op_words.specs.Kinds.{MayTakeNumber, Lowers, GetsRoom, MakesHand, JoinsHand, HoldsAlone};

/// Each atomic step is a step of the machine, or leaves its state as it was.
///
/// An exchange is a step of the machine if it finds the word that it expects. Otherwise it is a load. A load changes
/// nothing but what its hand has noted. The machine's state also stays if a hand is made or joined.
pub fn each_step()
    ensures loads { (p : Plan) (cap counters : ℕ) (m : Moment p cap counters)
        → Loads p cap counters m }
    ensures ready { (p : Plan) (cap counters : ℕ) (m : Moment p cap counters)
        → Makes p cap counters m }
    ensures claims { (p : Plan) (cap counters : ℕ) (m : Moment p cap counters)
        → Claims p cap counters m }
    ensures records { (p : Plan) (cap counters : ℕ) (m : Moment p cap counters)
        → Records p cap counters m }
    ensures finishes { (p : Plan) (cap counters : ℕ) (m : Moment p cap counters)
        → Finishes p cap counters m }
    ensures gives_back { (p : Plan) (cap counters : ℕ) (m : Moment p cap counters)
        → GivesBack p cap counters m }
    ensures spreads { (p : Plan) (cap counters : ℕ) (m : Moment p cap counters)
        → Spreads p cap counters m }
    ensures rolls_back { (p : Plan) (cap counters : ℕ) (m : Moment p cap counters)
        → RollsBack p cap counters m }
    ensures decides { (p : Plan) (cap counters : ℕ) (m : Moment p cap counters)
        → DecidesEvent p cap counters m }
    ensures settles { (p : Plan) (cap counters : ℕ) (m : Moment p cap counters)
        → Settles p cap counters m }
    ensures loads_record { (p : Plan) (cap counters : ℕ) (m : Moment p cap counters)
        → LoadsRecord p cap counters m }
    ensures loads_decision { (p : Plan) (cap counters : ℕ) (m : Moment p cap counters)
        → LoadsDecision p cap counters m }
    ensures takes { (p : Plan) (cap counters : ℕ) (m : Moment p cap counters)
        → MayTakeNumber p cap counters m }
    ensures lowers { (p : Plan) (cap counters : ℕ) (m : Moment p cap counters)
        → Lowers p cap counters m }
    ensures gets_room { (p : Plan) (cap counters : ℕ) (m : Moment p cap counters)
        → GetsRoom p cap counters m }
    ensures makes_hand { (p : Plan) (cap counters : ℕ) (m : Moment p cap counters)
        → MakesHand p cap counters m }
    ensures joins { (p : Plan) (cap counters : ℕ) (m : Moment p cap counters)
        → JoinsHand p cap counters m }
{}

/// An operation is held by at most one hand at a time.
pub fn one_holder()
    ensures { (p : Plan) (cap counters : ℕ) → HoldsAlone p cap counters }
{}

/// A closed board shows only one view: the trail of the root that closed it, and those of the hands joined into it.
pub fn one_view()
    ensures { (p q : Plan) (cap most counters many : ℕ) (v u : View) (c : Closed)
        → IsClosed p cap counters v c → IsClosed q most many u c → v ≡ u }
{}
