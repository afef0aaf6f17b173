ghost use Rattle.std.specs.Prelude.{◌≡◌, ◌≤◌, length};
ghost use Rattle.apiservice_rows.specs.declared.row_list.TheConstants.{MOST_ROWS};
ghost use Rattle.apiservice_table.specs.Order.{IsInOrder};
ghost use Rattle.apiservice_table.specs.Table.{HasDistinctNames};
ghost use Rattle.front_base.specs.declared.line.TheConstants.{MOST_LINE_BYTES};

use apiservice_rows::Rows;
use audit_core::{Settings, Sink};
use model_worlds::Limits;
use std::marker::Model;

/// What stays as it is while steps are taken.
#[derive(Drop)]
pub struct CoreSetup {
    /// By what requests are judged and recorded. A line may have at most `MOST_LINE_BYTES` bytes.
    pub settings: Settings,
    /// The rows of the table before any change, as a table has them: in byte order of names, each name once, at most
    /// `MOST_ROWS`.
    pub opening: Rows,
    /// The word that audit IDs begin with.
    pub boot: u64,
    /// How many lines the log's buffer may hold.
    pub log_capacity: u32,
    /// How many lines the webhook's buffer may hold.
    pub hook_capacity: u32,
    /// How many lines and bytes a writer may try at once.
    pub limits: Limits,
}

impl Model for CoreSetup {
    ghost use Rattle.std.specs.Prelude.{◌≤◌, length};
    ghost use Rattle.apiservice_rows.specs.declared.row_list.TheConstants.{MOST_ROWS};
    ghost use Rattle.apiservice_table.specs.Order.{IsInOrder};
    ghost use Rattle.apiservice_table.specs.Table.{HasDistinctNames};
    ghost use Rattle.front_base.specs.declared.line.TheConstants.{MOST_LINE_BYTES};
    ghost use Rattle.model_sinks.specs.Fixed as seen;

    ghost Value = { seen.Fixed };

    ghost view = { λ s. record {
      settings = s.settings;
      opening = s.opening;
      boot = s.boot;
      log_capacity = s.log_capacity;
      hook_capacity = s.hook_capacity;
      limits = s.limits;
    } };

    ghost invariant = { λ s. (s.settings.max_event ≤ MOST_LINE_BYTES) × (length s.opening ≤ MOST_ROWS)
        × IsInOrder s.opening × HasDistinctNames s.opening };
}

impl CoreSetup {
    ghost use Rattle.model_sinks.specs.Fixed.{capacity_of};

    /// How many lines the buffer of a sink may hold.
    pub fn capacity(&self, sink: Sink) -> u32
        ensures { result ≡ capacity_of self.now sink }
    {
        match sink {
            Sink::Log => self.log_capacity,
            Sink::Webhook => self.hook_capacity,
        }
    }

    /// By what requests are judged and recorded.
    pub fn settings(&self) -> &Settings
        ensures is { result.now ≡ self.now.settings }
        ensures max { result.now.max_event ≤ MOST_LINE_BYTES }
    {
        &self.settings
    }

    /// The rows of the table before any change.
    pub fn opening(&self) -> &Rows
        ensures is { result.now ≡ self.now.opening }
        ensures few { length result.now ≤ MOST_ROWS }
        ensures order { IsInOrder result.now }
        ensures distinct { HasDistinctNames result.now }
    {
        &self.opening
    }
}
