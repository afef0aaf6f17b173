// What the definition of `serve` means.
ghost use Rattle.std.specs.Prelude.{◌≡◌, ◌≢◌, ◌↔◌, [], ℕ, List, None, Ok, Option};
ghost use Rattle.audit_core.specs.declared.sinks.SinkMode.{SinkMode};
ghost use Rattle.audit_core.specs.declared.sinks.SinkMode.TheVariants.{Off};
ghost use Rattle.serve_config.specs.Serve.{limits_by, sink_by};
ghost use Rattle.serve_config.specs.declared.sinks.SinkWords.{SinkWords};
ghost use Rattle.tcp_ports.specs.declared.limits.TheConstants.{DEFAULT_LIMITS};

/// Without options, peers may take as long as `tcp_ports` says of a server that nobody tuned.
pub fn the_limits_are_the_ports_own()
    ensures { limits_by [] ≡ Ok DEFAULT_LIMITS }
{}

/// A sink that is told is off exactly where no option names it.
pub fn a_sink_is_off_where_it_has_no_name()
    ensures { (default : SinkMode) (target mode : Option (List ℕ)) (sink : SinkWords) → default ≢ Off
        → sink_by default target mode ≡ Ok sink → (sink.target ≡ target) × ((sink.mode ≡ Off) ↔ (target ≡ None)) }
{}
