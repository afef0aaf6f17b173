ghost use Rattle.std.specs.Prelude.{◌≡◌, ◌<◌, ◌^◌, ℕ, true, Some};
ghost use Rattle.std.specs.Str.{is_utf8};
ghost use Rattle.front_base.specs.AuditId as base;
ghost use Rattle.front_base.specs.Moment.{moment_text};
ghost use Rattle.front_base.specs.declared.moment.TheConstants.{MOMENT_END};
ghost use Rattle.stamp_text.specs.Dates as dates;
ghost use Rattle.stamp_text.specs.Ids as ids;

/// Every audit ID and every moment is read back from its text.
pub fn stamps_read_back()
    ensures id { (id : base.AuditId) → id.boot < 2 ^ 64 → id.bay < 2 ^ 16 → id.number < 2 ^ 48
        → ids.audit_id_of (base.audit_id_text id) ≡ Some id }
    ensures utf8 { (id : base.AuditId) → is_utf8 (base.audit_id_text id) ≡ true }
    ensures moment { (micros : ℕ) → micros < MOMENT_END → dates.moment_of (moment_text micros) ≡ Some micros }
{}
