//! The logs of a controller: when a Get Log Page is refused, and what it returns. Section "Get Log
//! Page command".

ghost use Rattle.std.specs.Prelude.{◌≡◌, ◌+◌, ◌<◌, ◌≤◌, length};
ghost use Rattle.nv_command.specs.declared.reply.Reply.TheVariants as reply;
ghost use Rattle.nv_subsystem.specs.inner.ControllerView.{controller_view};
ghost use Rattle.nv_model.specs.Logs.{entry_count, errors_of, log_length, log_reply, log_rows};
ghost use Rattle.nv_model.specs.Logs.{smart_of};
ghost use Rattle.nv_model.specs.inner.Conditions.{Checks};

use crate::controller::Controller;
use crate::record_room::RecordRoom;
use crate::subsystem::Subsystem;
use nv_command::{BROADCAST_NSID, Borrowed, LogPage, LogQuery, Refusal, Reply, StatusCode};
use nv_layout::{ErrorEntries, Smart};

impl Controller {
    /// Returns the error log, newest first, with entries without an error up to ELPE + 1.
    fn errors(&self) -> ErrorEntries<'_>
        requires { self.now.log.most ≡ self.now.identity.numbers.elpe + 1 }
        ensures { result ≡ errors_of (controller_view self.now) }
    {
        self.log.entries()
    }

    /// Returns the health log: what the file says, and how many commands were refused.
    fn health(&self) -> Smart
        ensures { result ≡ smart_of (controller_view self.now) }
    {
        let smart = self.smart;
        let counters = smart.counters;
        let sensors = smart.sensors;
        Smart {
            critical_warning: smart.critical_warning,
            temperature: smart.temperature,
            avail_spare: smart.avail_spare,
            spare_thresh: smart.spare_thresh,
            percent_used: smart.percent_used,
            data_units_read: u128::from(counters.data_units_read),
            data_units_written: u128::from(counters.data_units_written),
            host_read_commands: u128::from(counters.host_read_commands),
            host_write_commands: u128::from(counters.host_write_commands),
            controller_busy_time: u128::from(counters.controller_busy_time),
            power_cycles: u128::from(counters.power_cycles),
            power_on_hours: u128::from(counters.power_on_hours),
            unsafe_shutdowns: u128::from(counters.unsafe_shutdowns),
            media_errors: u128::from(counters.media_errors),
            num_err_log_entries: u128::from(self.refusals),
            warning_temp_time: smart.warning_temp_time,
            critical_comp_time: smart.critical_comp_time,
            sensors,
        }
    }

    /// Returns the reply with the health log. It isn't inlined, so that only this reply needs room
    /// for it.
    #[inline(never)]
    fn health_reply<'a>(&self, room: &'a mut RecordRoom) -> Reply<'a>
        ensures { result ≡ reply.Smart (smart_of (controller_view self.now)) }
    {
        let data = room.smart.insert(self.health());
        Reply::Smart(Borrowed::new(data))
    }
}

impl Subsystem {
    /// Returns the length of a log in bytes.
    fn log_length(&self, ctrl: u16, page: LogPage) -> u64
        requires { ctrl < length self.now.controllers }
        ensures { result ≡ log_length self.now ctrl page }
    {
        match page {
            LogPage::ErrorInformation => {
                let elpe = self.controllers[ctrl as usize].identity.numbers.elpe;
                64 * (u64::from(elpe) + 1)
            }
            LogPage::Health => 512,
        }
    }

    /// Refuses a Get Log Page by the first condition that holds. The conditions are in the order of
    /// the rows.
    pub(crate) fn check_log(&self, ctrl: u16, asked: LogQuery) -> Result<(), Refusal>
        requires { ctrl < length self.now.controllers }
        ensures { Checks (log_rows self.now ctrl asked) result }
    {
        let LogQuery {
            lid,
            nsid,
            offset,
            dwords,
        } = asked;
        let page = LogPage::asked(lid);
        if self.limit(ctrl) < dwords.bytes() {
            Err(Refusal::from(StatusCode::InvalidFieldInCommand))
        } else if page.lid() != lid {
            Err(Refusal::from(StatusCode::InvalidLogPage))
        } else if !(nsid == 0 || nsid == BROADCAST_NSID) {
            Err(Refusal::from(StatusCode::InvalidFieldInCommand))
        } else if self.log_length(ctrl, page) < offset || offset % 4 != 0 {
            Err(Refusal::from(StatusCode::InvalidFieldInCommand))
        } else {
            Ok(())
        }
    }

    /// Returns the reply with a log of a controller.
    pub(crate) fn log_reply<'a>(
        &'a self,
        ctrl: u16,
        page: LogPage,
        room: &'a mut RecordRoom,
    ) -> Reply<'a>
        requires { ctrl < length self.now.controllers }
        ensures { result ≡ log_reply self.now ctrl page }
    {
        let controller = &self.controllers[ctrl as usize];
        match page {
            LogPage::ErrorInformation => Reply::Errors(controller.errors()),
            LogPage::Health => controller.health_reply(room),
        }
    }
}
