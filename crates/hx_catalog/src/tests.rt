mod catalogues;
mod lists;
mod properties;
