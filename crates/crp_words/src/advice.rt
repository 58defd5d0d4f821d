//! What to look at where a setting is beyond its limits, in plain words.
ghost use Rattle.crp_jobs.specs.Advice.{IsPlainLine};

use crate::usage::SettingFault;

/// What the setting must be: one line.
pub fn advice_on_setting(fault: &SettingFault) -> &'static str
    ensures { IsPlainLine result.now }
{
    match fault {
        SettingFault::Workers => "--workers must be a number from 1 to 64",
        SettingFault::Budget => "--budget must be a number from 0 to 1099511627776",
        SettingFault::Split => "--split must be a number from 0 to 8",
        SettingFault::Beam => "--beam must be a number from 0 to 10000",
        SettingFault::Thin => "--thin must be a number from 0 to 1000000",
        SettingFault::Rows => "--rows must be a number from 1 to 12",
        SettingFault::Tiers => "--tiers must be a number from 1 to 8",
        SettingFault::Heights => {
            "--heights must be one digit from 1 to 8 for each of 1 to 12 rows, joined by points, as 4.5.5.4"
        }
        SettingFault::Bay => {
            "--bay must be the name of a bay as reports have it: its block, a blank, and its number, as 'A 1'"
        }
        SettingFault::Seconds =>
            "--seconds must be a number of seconds from 0.001 to 86400, as 10 or 0.5",
        SettingFault::TotalSeconds => {
            "--total-seconds must be a number of seconds from 0.001 to 86400, as 10 or 0.5"
        }
    }
}
